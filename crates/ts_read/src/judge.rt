//! The conditions of a typestate file, one after another in the order of their numbers.
//! Each is searched for only where those before it hold.

ghost use Rattle.std.specs.Prelude.{◌≡◌, IfOk, option_map};
ghost use Rattle.ts_read.specs.inner.Finding.{blamed_of};
ghost use Rattle.ts_read.specs.inner.Deciding.{broken_of, tagged, labels_or_end, methods_or_later, fault_found};

use crate::Condition;
use crate::blame::Blamed;
use crate::repeats::{repeated_entry, repeated_label, repeated_state};
use crate::signatures::other_signature;
use crate::unknown::{state_named_end, unknown_target};
use mg_text::{Memory, Names};
use std::alloc::Global;
use ts_parse::WrittenState;

/// A condition that is broken, and by which name.
#[derive(Drop)]
pub(crate) struct Broken {
    pub condition: Condition,
    pub blamed: Blamed,
}

// This condition is broken, if something breaks it.
fn broken_by(condition: Condition, found: Option<Blamed>) -> Option<Broken>
    ensures { option_map broken_of result ≡ tagged condition (option_map blamed_of found) }
{
    match found {
        Some(blamed) => Some(Broken { condition, blamed }),
        None => None,
    }
}

fn labels_or_end(alloc: Global, states: &[WrittenState]) -> Result<Option<Broken>, Memory>
    ensures { IfOk result (λ o. option_map broken_of o ≡ labels_or_end states.now) }
{
    let label = repeated_label(alloc, states)?;
    let found = broken_by(Condition::DuplicateLabel, label);
    if found.is_some() {
        return Ok(found);
    }
    let end = state_named_end(states)?;
    Ok(broken_by(Condition::ReservedEnd, end))
}

fn methods_or_later(alloc: Global, states: &[WrittenState]) -> Result<Option<Broken>, Memory>
    ensures { IfOk result (λ o. option_map broken_of o ≡ methods_or_later states.now) }
{
    let entry = repeated_entry(alloc, states)?;
    let found = broken_by(Condition::DuplicateMethod, entry);
    if found.is_some() {
        return Ok(found);
    }
    let other = other_signature(alloc, states)?;
    let found = broken_by(Condition::SignatureDiffers, other);
    if found.is_some() {
        return Ok(found);
    }
    labels_or_end(alloc, states)
}

/// The first condition that is broken, if one is. The names are those of the states.
pub(crate) fn first_broken(
    alloc: Global,
    names: &Names,
    states: &[WrittenState],
) -> Result<Option<Broken>, Memory>
    ensures { IfOk result (λ o. option_map broken_of o ≡ fault_found names.now states.now) }
{
    let state = repeated_state(alloc, states)?;
    let found = broken_by(Condition::DuplicateState, state);
    if found.is_some() {
        return Ok(found);
    }
    let target = unknown_target(names, states)?;
    let found = broken_by(Condition::UnknownState, target);
    if found.is_some() {
        return Ok(found);
    }
    methods_or_later(alloc, states)
}
