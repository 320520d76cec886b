//! What all files spell, in the order of the words.
//! No two of them may be protocols of one role.

ghost use Rattle.std.specs.Prelude.{◌≡◌, [], ◌∷◌, ◌<◌, ◌^◌, ℕ, List as Seq, length, map, IfSome, Some, None};
ghost use Rattle.mg_read.specs.First.{Judged, with_earlier};
ghost use Rattle.mg_refusal.specs.Order.{Answers};
ghost use Rattle.mg_sources.specs.Files.{HaveKinds, sources};
ghost use Rattle.mg_sources.specs.Reading.{EachSpells, Refuses};
ghost use Rattle.mg_sources.specs.Sources.{SharesRole};
ghost use Rattle.mg_sources.specs.Parts.{part_of};
ghost use Rattle.mg_sources.specs.inner.Answers.{role_in};

use crate::part::{Part, read_part};
use mg_refusal::Stop;
use mg_text::{Bytes, List, Place, Text};
use std::alloc::Global;
use std::collections::HashSet;

/// What these files spell, each by the ending of its name.
///
/// # Errors
/// `Refused` with the fault of the first file in the order of the words that its reader refuses;
/// `Memory` where memory is wanted.
pub fn read_parts(alloc: Global, names: &[Text], contents: &[Bytes]) -> Result<List<Part>, Stop>
    requires same { length names.now ≡ length contents.now }
    requires count { length contents.now < 2 ^ 32 }
    requires kinds { HaveKinds names.now }
    ensures { Answers (λ parts. EachSpells (sources names.now contents.now) (map part_of parts.items))
        (λ r. Judged Refuses (sources names.now contents.now) (Some r)) result }
{
    let mut parts = List::new(alloc);
    for (number, bytes) in contents.iter().enumerate() {
        let part = read_part(alloc, number as u32, &names[number], bytes.as_slice())?;
        parts.push(part)?;
    }
    Ok(parts)
}

/// Tells whether each protocol is of a role that no earlier one is of.
///
/// # Errors
/// `Refused` with the first that isn't, `SameRole`; `Memory` where memory is wanted.
pub fn check_roles(alloc: Global, parts: &[Part]) -> Result<(), Stop>
    requires { length parts.now < 2 ^ 32 }
    ensures { (names contents : Seq (Seq ℕ)) → EachSpells (sources names contents) (map part_of parts.now)
        → Answers (λ done. Judged SharesRole (with_earlier (sources names contents)) None)
        (λ r. Judged SharesRole (with_earlier (sources names contents)) (Some r)) result }
{
    let mut roles: HashSet<String> = HashSet::new(alloc);
    for (number, part) in parts.iter().enumerate() {
        let role = match role_of(part) {
            Some(role) => role,
            None => continue,
        };
        if !roles.insert(String::from_str(alloc, role.as_str())?)? {
            let place = Place::start(number as u32);
            let name = role.copy()?;
            return Err(Stop::named("SameRole", place, name));
        }
    }
    Ok(())
}

// The role of a part that is a protocol.
fn role_of(part: &Part) -> Option<&Text>
    ensures some { IfSome result (λ role. role_in (part_of part.now) ≡ role.now ∷ []) }
    ensures none { result ≡ None → role_in (part_of part.now) ≡ [] }
{
    match part {
        Part::Protocol(local) => Some(local.me()),
        Part::States(_) | Part::Classes(_) => None,
    }
}
