//! What stands twice: states of a file, methods and `drop: end` of a state, labels of a list.
//! Each search looks at a name once, in a table of those before it.

ghost use Rattle.std.specs.Prelude.{◌≡◌, [], false, IfOk, map, option_map};
ghost use Rattle.ts_read.specs.inner.Finding.{blamed_of, repeat_in, first_some, state_name, label_name, at_method, twice_in, repeat_entry};
ghost use Rattle.ts_read.specs.inner.Finding.{branches_in, repeat_label, repeat_labels};

use crate::blame::{Blamed, blame, blame_drop, note};
use mg_text::{Memory, Names};
use std::alloc::Global;
use ts_parse::{WrittenBranch, WrittenEntry, WrittenState, WrittenTarget};

// The first state whose name an earlier one has.
pub(crate) fn repeated_state(
    alloc: Global,
    states: &[WrittenState],
) -> Result<Option<Blamed>, Memory>
    ensures { IfOk result (λ o. option_map blamed_of o ≡ repeat_in [] (map state_name states.now)) }
{
    let mut met = Names::new(alloc);
    for item in states {
        let fresh = note(&mut met, &item.name.text)?;
        if !fresh {
            return blame(&item.name);
        }
    }
    Ok(None)
}

// The first entry that is the same as an earlier one of its state.
pub(crate) fn repeated_entry(
    alloc: Global,
    states: &[WrittenState],
) -> Result<Option<Blamed>, Memory>
    ensures { IfOk result (λ o. option_map blamed_of o ≡ first_some (map repeat_entry states.now)) }
{
    for item in states {
        let found = repeated_here(alloc, item.entries.as_slice())?;
        if found.is_some() {
            return Ok(found);
        }
    }
    Ok(None)
}

fn repeated_here(alloc: Global, entries: &[WrittenEntry]) -> Result<Option<Blamed>, Memory>
    ensures { IfOk result (λ o. option_map blamed_of o ≡ twice_in false [] entries.now) }
{
    let mut met = Names::new(alloc);
    let mut dropped = false;
    for item in entries {
        match item {
            WrittenEntry::Method(method) => {
                let fresh = note(&mut met, &method.name.text)?;
                if !fresh {
                    return blame(&method.name);
                }
            }
            WrittenEntry::DropEnd(place) => {
                if dropped {
                    return blame_drop(alloc, *place);
                }
                dropped = true;
            }
        }
    }
    Ok(None)
}

// The first label whose name an earlier one of its list has.
pub(crate) fn repeated_label(
    alloc: Global,
    states: &[WrittenState],
) -> Result<Option<Blamed>, Memory>
    ensures { IfOk result (λ o. option_map blamed_of o ≡ first_some (map repeat_labels states.now)) }
{
    for item in states {
        let found = repeated_label_in(alloc, item.entries.as_slice())?;
        if found.is_some() {
            return Ok(found);
        }
    }
    Ok(None)
}

fn repeated_label_in(alloc: Global, entries: &[WrittenEntry]) -> Result<Option<Blamed>, Memory>
    ensures { IfOk result (λ o. option_map blamed_of o ≡ first_some (map (at_method repeat_label) entries.now)) }
{
    for item in entries {
        let found = repeated_label_at(alloc, item)?;
        if found.is_some() {
            return Ok(found);
        }
    }
    Ok(None)
}

fn repeated_label_at(alloc: Global, entry: &WrittenEntry) -> Result<Option<Blamed>, Memory>
    ensures { IfOk result (λ o. option_map blamed_of o ≡ at_method repeat_label entry.now) }
{
    match entry {
        WrittenEntry::Method(method) => repeated_label_of(alloc, &method.target),
        WrittenEntry::DropEnd(_) => Ok(None),
    }
}

fn repeated_label_of(alloc: Global, target: &WrittenTarget) -> Result<Option<Blamed>, Memory>
    ensures { IfOk result (λ o. option_map blamed_of o ≡ repeat_in [] (map label_name (branches_in target.now))) }
{
    match target {
        WrittenTarget::One(_) => Ok(None),
        WrittenTarget::ByAnswer(branches) => repeated_branch(alloc, branches.as_slice()),
    }
}

fn repeated_branch(alloc: Global, branches: &[WrittenBranch]) -> Result<Option<Blamed>, Memory>
    ensures { IfOk result (λ o. option_map blamed_of o ≡ repeat_in [] (map label_name branches.now)) }
{
    let mut met = Names::new(alloc);
    for item in branches {
        let fresh = note(&mut met, &item.label.text)?;
        if !fresh {
            return blame(&item.label);
        }
    }
    Ok(None)
}
