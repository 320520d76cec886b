//! The command `translate`: Scribble files become the typestates of their roles, and the Java
//! classes by which programs play them.

ghost use Rattle.std.specs.Prelude.{◌≡◌, ◌<◌, ◌^◌, ◌++◌, ◌∷◌, [], All, codes, length, map, IfOk, OnOk, option_map, Some};
ghost use Rattle.api_package.specs.Heads.{headed, with_head};
ghost use Rattle.scr_tree.specs.Local.{tree_of};
ghost use Rattle.mg_sources.specs.Parts.{part_of};
ghost use Rattle.mg_words.specs.Words.{IsFileOf, Translate};
ghost use Rattle.mg_top.specs.Writing.{in_folder};
ghost use Rattle.mg_top.specs.Translation.{IsTypestateFile, api_written};
ghost use Rattle.mg_top.specs.inner.Preparing.{target_of, IsCarried, AddsPart, AddsTranslation, EachIsWritten, locals_in};
ghost use Rattle.stm_api.specs.View.{written_of};

use api_package::{class_head, enum_head};
use mg_delivery::{Action, Delivery, Output, Status};
use mg_refusal::Stop;
use mg_sources::{Part, check_roles, read_parts};
use mg_text::{Bytes, List, Memory, Text};
use scr_tree::Local;
use std::alloc::Global;
use stm_api::{ApiFile, api};
use stm_gen::generate;
use ts_read::print_typestate;

/// Where the files of a translation go.
#[derive(Clone, Copy)]
pub struct Target<'a> {
    /// The package of the Java files, where one is named.
    pub package_name: Option<&'a Text>,
    /// The folder of all files, where one is named.
    pub folder: Option<&'a Text>,
}

/// The typestates and the Java files of all protocols, or the first refusal.
pub fn translate(
    alloc: Global,
    to: &Target<'_>,
    names: &[Text],
    contents: &[Bytes],
) -> Result<Delivery, Stop>
    requires same { length names.now ≡ length contents.now }
    requires count { length contents.now < 2 ^ 32 }
    requires scribble { All (IsFileOf (codes ".scr")) names.now }
    ensures { IsCarried (Translate (target_of to.now).package_name (target_of to.now).folder names.now) contents.now result }
{
    let parts = read_parts(alloc, names, contents)?;
    check_roles(alloc, parts.as_slice())?;
    let actions = write_all(alloc, to, parts.as_slice())?;
    Ok(Delivery {
        actions,
        status: Status::Done,
    })
}

// The writes of all protocols.
fn write_all(alloc: Global, to: &Target<'_>, parts: &[Part]) -> Result<List<Action>, Memory>
    ensures { IfOk result (λ w. EachIsWritten (target_of to.now) (locals_in (map part_of parts.now)) w.items) }
{
    let mut writes = List::new(alloc);
    for part in parts {
        add_part(alloc, to, part, &mut writes)?;
    }
    Ok(writes)
}

// Appends what is written for what a file spells, which is nothing but for a protocol.
fn add_part(
    alloc: Global,
    to: &Target<'_>,
    part: &Part,
    writes: &mut List<Action>,
) -> Result<(), Memory>
    ensures { OnOk result (AddsPart (target_of to.now) (part_of part.now) writes.old.items writes.new.items) }
{
    match part {
        Part::Protocol(local) => add_translation(alloc, to, local, writes),
        Part::States(_) | Part::Classes(_) => Ok(()),
    }
}

// Appends what is written for a protocol: its typestate and its API.
fn add_translation(
    alloc: Global,
    to: &Target<'_>,
    local: &Local,
    writes: &mut List<Action>,
) -> Result<(), Memory>
    ensures { OnOk result (AddsTranslation (target_of to.now) (tree_of local.now) writes.old.items writes.new.items) }
{
    let typestate = typestate_file(alloc, to.folder, local)?;
    let files = api(alloc, local)?;
    writes.push(Action::Write(typestate))?;
    add_files(alloc, to, files.as_slice(), writes)
}

// The file of a protocol's typestate.
fn typestate_file(alloc: Global, folder: Option<&Text>, local: &Local) -> Result<Output, Memory>
    ensures { IfOk result (λ o. IsTypestateFile (option_map (λ f. f.now) folder.entry) (tree_of local.now) o) }
{
    let typestate = generate(alloc, local)?;
    let text = print_typestate(alloc, &typestate)?;
    let mut name = String::new(alloc);
    name.push_str(local.me().as_str())?;
    name.push_str("Protocol.protocol")?;
    file_in(alloc, folder, &name, text.as_str().as_bytes())
}

// Appends the writes of these files, the class first and then the enums, in a package where one is
// named.
fn add_files(
    alloc: Global,
    to: &Target<'_>,
    files: &[ApiFile],
    writes: &mut List<Action>,
) -> Result<(), Memory>
    ensures { OnOk result (writes.new.items ≡ writes.old.items ++ map (api_written (target_of to.now).folder)
        (headed (target_of to.now).package_name (map written_of files.now))) }
{
    match to.package_name {
        Some(package_name) => add_packaged(alloc, to.folder, package_name, files, writes),
        None => add_plain(alloc, to.folder, files, writes),
    }
}

// Appends the writes of these files as they are.
fn add_plain(
    alloc: Global,
    folder: Option<&Text>,
    files: &[ApiFile],
    writes: &mut List<Action>,
) -> Result<(), Memory>
    ensures { OnOk result (writes.new.items ≡ writes.old.items ++ map (api_written (option_map (λ f. f.now) folder.entry))
        (map written_of files.now)) }
{
    for file in files {
        let output = file_in(
            alloc,
            folder,
            file.name.as_str(),
            file.text.as_str().as_bytes(),
        )?;
        writes.push(Action::Write(output))?;
    }
    Ok(())
}

// Appends the writes of these files in a package: each text stands behind a head.
fn add_packaged(
    alloc: Global,
    folder: Option<&Text>,
    package_name: &Text,
    files: &[ApiFile],
    writes: &mut List<Action>,
) -> Result<(), Memory>
    ensures { OnOk result (writes.new.items ≡ writes.old.items ++ map (api_written (option_map (λ f. f.now) folder.entry))
        (headed (Some package_name.now) (map written_of files.now))) }
{
    let Some((class, enums)) = files.split_first() else {
        return Ok(());
    };
    let head = class_head(alloc, package_name)?;
    add_headed(alloc, folder, &head, class, writes)?;
    let head = enum_head(alloc, package_name)?;
    add_enums(alloc, folder, &head, enums, writes)
}

// Appends the writes of enums behind this head.
fn add_enums(
    alloc: Global,
    folder: Option<&Text>,
    head: &Text,
    files: &[ApiFile],
    writes: &mut List<Action>,
) -> Result<(), Memory>
    ensures { OnOk result (writes.new.items ≡ writes.old.items ++ map (api_written (option_map (λ f. f.now) folder.entry))
        (map (with_head head.now) (map written_of files.now))) }
{
    for file in files {
        add_headed(alloc, folder, head, file, writes)?;
    }
    Ok(())
}

// Appends the write of a file behind this head.
fn add_headed(
    alloc: Global,
    folder: Option<&Text>,
    head: &Text,
    file: &ApiFile,
    writes: &mut List<Action>,
) -> Result<(), Memory>
    ensures { OnOk result (writes.new.items ≡ writes.old.items
        ++ api_written (option_map (λ f. f.now) folder.entry) (with_head head.now (written_of file.now)) ∷ []) }
{
    let mut text = String::from_str(alloc, head.as_str())?;
    text.push_str(file.text.as_str())?;
    let output = file_in(alloc, folder, file.name.as_str(), text.as_bytes())?;
    writes.push(Action::Write(output))
}

/// A file with this text, in the folder where there is one.
pub fn file_in(
    alloc: Global,
    folder: Option<&Text>,
    name: &str,
    text: &[u8],
) -> Result<Output, Memory>
    ensures { IfOk result (λ o. o ≡ record { name = in_folder (option_map (λ f. f.now) folder.entry) name.now; text = text.now }) }
{
    let mut path = String::new(alloc);
    if let Some(folder) = folder {
        path.push_str(folder.as_str())?;
        path.push_str("/")?;
    }
    path.push_str(name)?;
    let text = Bytes::of(alloc, text)?;
    Output::new(alloc, Text::from_string(path), text)
}
