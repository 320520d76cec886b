//! From the files of protocols to their clients.

ghost use Rattle.std.specs.Prelude.{◌≡◌, ◌<◌, ◌^◌, ℕ, [], ◌∷◌, All, length, codes, map, Some, IfOk, option_map};
ghost use Rattle.mg_read.specs.First.{Judged};
ghost use Rattle.scr_tree.specs.Local.{tree_of};
ghost use Rattle.mg_refusal.specs.Order.{Answers};
ghost use Rattle.mg_sources.specs.Files.{EndsWith, HaveKinds, source_of, sources};
ghost use Rattle.mg_sources.specs.Reading.{Protocol, Reads, EachSpells};
ghost use Rattle.mg_sources.specs.Parts.{part_of};
ghost use Rattle.stm_api.specs.View.{written_of};
ghost use Rattle.mg_client.specs.Clients.{AreClients, EachPlays, IsPlayed, IsUnaccepted, FirstRefusal, packed};
ghost use Rattle.mg_client.specs.inner.Answered.{IsJudged, IsFound};

use api_package::enum_head;
use mg_accepted::accept;
use mg_refusal::Stop;
use mg_sources::{Part, check_roles, read_parts};
use mg_text::{Bytes, List, Memory, Place, Text};
use scr_tree::Local;
use std::alloc::Global;
use stm_api::ApiFile;
use stm_client::client;

/// The file of a client: its name, and its text.
#[derive(Drop)]
pub struct ClientFile {
    pub name: Text,
    pub text: Text,
}

/// The clients of the protocols that these files spell, in their order, in a package where one is
/// named. Each is accepted by `accept` beside the file of its protocol.
///
/// # Errors
/// `Refused` with the fault of the first file that its reader refuses; else with the first protocol
/// of a role that an earlier one is of; else `NotAccepted` with the role of the first whose client
/// isn't accepted. `Memory` where memory is wanted.
pub fn clients(
    alloc: Global,
    package_name: Option<&Text>,
    names: &[Text],
    contents: &[Bytes],
) -> Result<List<ClientFile>, Stop>
    requires same { length names.now ≡ length contents.now }
    requires count { length contents.now < 2 ^ 32 }
    requires scribble { All (EndsWith (codes ".scr")) names.now }
    ensures { Answers (λ fs. AreClients (option_map (λ p. p.now) package_name.entry) (sources names.now contents.now) fs.items)
        (FirstRefusal (option_map (λ p. p.now) package_name.entry) (sources names.now contents.now)) result }
{
    let parts = read_parts(alloc, names, contents)?;
    check_roles(alloc, parts.as_slice())?;
    clients_of(alloc, package_name, names, contents, parts.as_slice())
}

// The clients of what these files spell.
fn clients_of(
    alloc: Global,
    package_name: Option<&Text>,
    names: &[Text],
    contents: &[Bytes],
    parts: &[Part],
) -> Result<List<ClientFile>, Stop>
    requires same { length names.now ≡ length contents.now }
    requires count { length contents.now < 2 ^ 32 }
    requires scribble { All (EndsWith (codes ".scr")) names.now }
    requires spell { EachSpells (sources names.now contents.now) (map part_of parts.now) }
    ensures { Answers (λ fs. EachPlays (option_map (λ p. p.now) package_name.entry) (sources names.now contents.now) fs.items)
        (λ r. Judged (IsUnaccepted (option_map (λ p. p.now) package_name.entry)) (sources names.now contents.now) (Some r)) result }
{
    let mut files = List::new(alloc);
    for (number, bytes) in contents.iter().enumerate() {
        let file = client_of(
            alloc,
            package_name,
            number as u32,
            &names[number],
            bytes.as_slice(),
            &parts[number],
        )?;
        files.push(file)?;
    }
    Ok(files)
}

// The client of what a file spells, which is a protocol by the file's name.
fn client_of(
    alloc: Global,
    package_name: Option<&Text>,
    number: u32,
    name: &Text,
    bytes: &[u8],
    part: &Part,
) -> Result<ClientFile, Stop>
    requires scribble { EndsWith (codes ".scr") name.now }
    requires spells { Reads (source_of number name.now bytes.now) (part_of part.now) }
    ensures { Answers (IsPlayed (option_map (λ p. p.now) package_name.entry) (source_of number name.now bytes.now))
        (IsUnaccepted (option_map (λ p. p.now) package_name.entry) (source_of number name.now bytes.now)) result }
{
    match part {
        Part::Protocol(local) => accepted_client(alloc, package_name, number, name, bytes, local),
        // Never: such a file spells a protocol.
        Part::States(_) | Part::Classes(_) => Err(Stop::Memory),
    }
}

// The client of a protocol, where it is accepted beside the file that spells this.
fn accepted_client(
    alloc: Global,
    package_name: Option<&Text>,
    number: u32,
    name: &Text,
    bytes: &[u8],
    local: &Local,
) -> Result<ClientFile, Stop>
    requires scribble { EndsWith (codes ".scr") name.now }
    requires spells { Reads (source_of number name.now bytes.now) (Protocol (tree_of local.now)) }
    ensures { Answers (IsPlayed (option_map (λ p. p.now) package_name.entry) (source_of number name.now bytes.now))
        (IsUnaccepted (option_map (λ p. p.now) package_name.entry) (source_of number name.now bytes.now)) result }
{
    match found_client(alloc, package_name, name, bytes, local)? {
        Some(file) => Ok(file),
        None => {
            let place = Place::start(number);
            let role = local.me().copy()?;
            Err(Stop::named("NotAccepted", place, role))
        }
    }
}

// The client of a protocol, if it is accepted beside a file of this name that holds this, whatever
// the file's number.
fn found_client(
    alloc: Global,
    package_name: Option<&Text>,
    name: &Text,
    bytes: &[u8],
    local: &Local,
) -> Result<Option<ClientFile>, Memory>
    requires scribble { EndsWith (codes ".scr") name.now }
    ensures { IfOk result (λ f. (number : ℕ) → Reads (source_of number name.now bytes.now) (Protocol (tree_of local.now))
        → IsFound (option_map (λ p. p.now) package_name.entry) (source_of number name.now bytes.now) f) }
{
    let Some(file) = client(alloc, local)? else {
        return Ok(None);
    };
    let file = packed(alloc, package_name, file)?;
    if is_accepted(alloc, name, bytes, &file)? {
        Ok(Some(file))
    } else {
        Ok(None)
    }
}

// The file of a client, in a package where one is named: before it stand the package's line and an
// empty one.
fn packed(alloc: Global, package_name: Option<&Text>, file: ApiFile) -> Result<ClientFile, Memory>
    ensures { IfOk result (λ f. f ≡ packed (option_map (λ p. p.now) package_name.entry) (written_of file)) }
{
    let ApiFile { name, text, .. } = file;
    let Some(package_name) = package_name else {
        return Ok(ClientFile { name, text });
    };
    let head = enum_head(alloc, package_name)?;
    let mut headed = String::from_str(alloc, head.as_str())?;
    headed.push_str(text.as_str())?;
    let text = Text::from_string(headed);
    Ok(ClientFile { name, text })
}

// Whether a client is accepted beside the file of this name that holds this.
fn is_accepted(alloc: Global, name: &Text, bytes: &[u8], file: &ClientFile) -> Result<bool, Memory>
    requires scribble { EndsWith (codes ".scr") name.now }
    requires java { EndsWith (codes ".java") file.now.name }
    ensures { IfOk result (λ b. IsJudged (sources (name.now ∷ file.now.name ∷ []) (bytes.now ∷ file.now.text ∷ [])) b) }
{
    let names = two_names(alloc, name, &file.name)?;
    let contents = two_contents(alloc, bytes, file.text.as_str().as_bytes())?;
    are_accepted(alloc, names.as_slice(), contents.as_slice())
}

// Two names.
fn two_names(alloc: Global, first: &Text, second: &Text) -> Result<List<Text>, Memory>
    ensures { IfOk result (λ ns. ns.items ≡ first.now ∷ second.now ∷ []) }
{
    let mut names = List::new(alloc);
    names.push(first.copy()?)?;
    names.push(second.copy()?)?;
    Ok(names)
}

// The contents of two files.
fn two_contents(alloc: Global, first: &[u8], second: &[u8]) -> Result<List<Bytes>, Memory>
    ensures { IfOk result (λ cs. cs.items ≡ first.now ∷ second.now ∷ []) }
{
    let mut contents = List::new(alloc);
    contents.push(Bytes::of(alloc, first)?)?;
    contents.push(Bytes::of(alloc, second)?)?;
    Ok(contents)
}

// Whether `check` accepts these files.
fn are_accepted(alloc: Global, names: &[Text], contents: &[Bytes]) -> Result<bool, Memory>
    requires same { length names.now ≡ length contents.now }
    requires count { length contents.now < 2 ^ 32 }
    requires kinds { HaveKinds names.now }
    ensures { IfOk result (λ b. IsJudged (sources names.now contents.now) b) }
{
    match accept(alloc, names, contents) {
        Ok(_) => Ok(true),
        Err(Stop::Refused(_)) => Ok(false),
        Err(Stop::Memory) => Err(Memory),
    }
}
