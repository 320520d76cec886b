//! The protocols of a file by their names: those that a `do` names, and those that share one.

ghost use Rattle.std.specs.Prelude.{◌≡◌, ◌∷◌, IfOk, OnOk, map};
ghost use Rattle.std.specs.HashSet.{contains_text};
ghost use Rattle.mg_read.specs.First.{Judged, with_earlier};
ghost use Rattle.scr_tree.specs.Spots.{all_spots};
ghost use Rattle.scr_tree.specs.Going.{UnknownProtocol, DuplicateProtocol};
ghost use Rattle.scr_tree.specs.Written.{parts_in, name_in, body_of, written_of};
ghost use Rattle.scr_judge.specs.inner.Gone.{part_name, with_names, unknown_in, named_again};
ghost use Rattle.scr_judge.specs.inner.Listed.{first_among};
ghost use Rattle.scr_judge.specs.inner.Own.{all_parts};
ghost use Rattle.scr_judge.specs.inner.Seen.{none};
ghost use Rattle.scr_judge.specs.inner.View.{culprit_of};

use crate::culprit::Culprit;
use crate::on_spot::find_unknown_protocol;
use crate::seen::{add_name, no_names};
use mg_text::Memory;
use scr_tree::{Written, WrittenPart};
use std::alloc::Global;
use std::collections::HashSet;

/// The first `do` that names no protocol of the file.
pub fn find_unknown_do(alloc: Global, written: &Written) -> Result<Option<Culprit<'_>>, Memory>
    ensures { IfOk result (λ r. Judged (UnknownProtocol (map name_in (parts_in (written_of 0 written.now))))
        (all_spots (map body_of (parts_in (written_of 0 written.now)))) (culprit_of r)) }
{
    let names = protocol_names(alloc, written)?;
    match find_unknown_protocol(&names, written.first.body.as_slice()) {
        Some(culprit) => Ok(Some(culprit)),
        None => Ok(find_unknown_in(&names, written.others.as_slice())),
    }
}

// The same of protocols behind the first.
#[tactic(auto, using(crate::proofs::Tables::steps))]
fn find_unknown_in<'a>(names: &HashSet<String>, parts: &'a [WrittenPart]) -> Option<Culprit<'a>>
    ensures { culprit_of result ≡ first_among (unknown_in (contains_text names.now)) parts.now }
{
    for part in parts {
        if let Some(culprit) = find_unknown_protocol(names, part.body.as_slice()) {
            return Some(culprit);
        }
    }
    None
}

/// The names of all protocols.
pub fn protocol_names(alloc: Global, written: &Written) -> Result<HashSet<String>, Memory>
    ensures { IfOk result (λ s. contains_text s ≡ with_names (map part_name (all_parts written.now)) none) }
{
    let mut names = no_names(alloc);
    let first = String::from_str(alloc, written.first.name.as_str())?;
    add_name(&mut names, first)?;
    add_names(alloc, &mut names, written.others.as_slice())?;
    Ok(names)
}

// Adds the names of protocols.
#[tactic(auto, using(crate::proofs::Naming::name_steps))]
fn add_names(
    alloc: Global,
    names: &mut HashSet<String>,
    parts: &[WrittenPart],
) -> Result<(), Memory>
    ensures { OnOk result (contains_text names.new ≡ with_names (map part_name parts.now) (contains_text names.old)) }
{
    for part in parts {
        let name = String::from_str(alloc, part.name.as_str())?;
        add_name(names, name)?;
    }
    Ok(())
}

/// The first protocol that has the name of one before it.
pub fn find_duplicate_protocol(
    alloc: Global,
    written: &Written,
) -> Result<Option<Culprit<'_>>, Memory>
    ensures { IfOk result (λ r. Judged DuplicateProtocol (with_earlier (parts_in (written_of 0 written.now))) (culprit_of r)) }
{
    let mut names = no_names(alloc);
    let first = String::from_str(alloc, written.first.name.as_str())?;
    add_name(&mut names, first)?;
    find_named_again(alloc, &mut names, written.others.as_slice())
}

// The first protocol whose name is in the set, or is that of one before it.
#[tactic(auto, using(crate::proofs::Naming::again_steps))]
fn find_named_again<'a>(
    alloc: Global,
    names: &mut HashSet<String>,
    parts: &'a [WrittenPart],
) -> Result<Option<Culprit<'a>>, Memory>
    ensures { IfOk result (λ r. culprit_of r ≡ named_again (contains_text names.old) parts.now) }
{
    for part in parts {
        let name = String::from_str(alloc, part.name.as_str())?;
        if !add_name(names, name)? {
            return Ok(Some(Culprit {
                place: part.place,
                name: part.name.as_str(),
            }));
        }
    }
    Ok(None)
}
