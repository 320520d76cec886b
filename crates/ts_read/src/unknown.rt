//! Targets that are no states, and states that are named as the end is.
//! The names of the states stand in one table.

ghost use Rattle.std.specs.Prelude.{◌≡◌, [], IfOk, map, option_map};
ghost use Rattle.ts_read.specs.inner.Finding.{blamed_of, first_some, at_method, noted, state_name, unknown_name, unknown_to};
ghost use Rattle.ts_read.specs.inner.Finding.{unknown_target, unknown_method, unknown_state, named_end};

use crate::blame::{Blamed, blame, note};
use mg_text::{Memory, Names};
use std::alloc::Global;
use ts_parse::{Naming, WrittenBranch, WrittenEntry, WrittenState, WrittenTarget};

/// The names of the states, each once.
pub(crate) fn state_table(alloc: Global, states: &[WrittenState]) -> Result<Names, Memory>
    ensures { IfOk result (λ n. n ≡ noted [] (map state_name states.now)) }
{
    let mut met = Names::new(alloc);
    for item in states {
        let _fresh = note(&mut met, &item.name.text)?;
    }
    Ok(met)
}

// The first target that is neither the end nor one of these states.
pub(crate) fn unknown_target(
    names: &Names,
    states: &[WrittenState],
) -> Result<Option<Blamed>, Memory>
    ensures { IfOk result (λ o. option_map blamed_of o ≡ first_some (map (unknown_state names.now) states.now)) }
{
    for item in states {
        let found = unknown_in_entries(names, item.entries.as_slice())?;
        if found.is_some() {
            return Ok(found);
        }
    }
    Ok(None)
}

fn unknown_in_entries(names: &Names, entries: &[WrittenEntry]) -> Result<Option<Blamed>, Memory>
    ensures { IfOk result (λ o. option_map blamed_of o ≡ first_some (map (at_method (unknown_method names.now)) entries.now)) }
{
    for item in entries {
        let found = unknown_in_entry(names, item)?;
        if found.is_some() {
            return Ok(found);
        }
    }
    Ok(None)
}

fn unknown_in_entry(names: &Names, entry: &WrittenEntry) -> Result<Option<Blamed>, Memory>
    ensures { IfOk result (λ o. option_map blamed_of o ≡ at_method (unknown_method names.now) entry.now) }
{
    match entry {
        WrittenEntry::Method(method) => unknown_in_target(names, &method.target),
        WrittenEntry::DropEnd(_) => Ok(None),
    }
}

fn unknown_in_target(names: &Names, target: &WrittenTarget) -> Result<Option<Blamed>, Memory>
    ensures { IfOk result (λ o. option_map blamed_of o ≡ unknown_target names.now target.now) }
{
    match target {
        WrittenTarget::One(to) => unless_known(names, to),
        WrittenTarget::ByAnswer(branches) => unknown_in_branches(names, branches.as_slice()),
    }
}

fn unknown_in_branches(names: &Names, branches: &[WrittenBranch]) -> Result<Option<Blamed>, Memory>
    ensures { IfOk result (λ o. option_map blamed_of o ≡ first_some (map (unknown_to names.now) branches.now)) }
{
    for item in branches {
        let found = unless_known(names, &item.to)?;
        if found.is_some() {
            return Ok(found);
        }
    }
    Ok(None)
}

// This name, unless it is the end or one of these.
fn unless_known(names: &Names, name: &Naming) -> Result<Option<Blamed>, Memory>
    ensures { IfOk result (λ o. option_map blamed_of o ≡ unknown_name names.now name.now) }
{
    let text = name.text.as_str();
    if text == "end" {
        return Ok(None);
    }
    if names.find(text).is_some() {
        return Ok(None);
    }
    blame(name)
}

// The first state that is named as the end is.
pub(crate) fn state_named_end(states: &[WrittenState]) -> Result<Option<Blamed>, Memory>
    ensures { IfOk result (λ o. option_map blamed_of o ≡ first_some (map named_end states.now)) }
{
    for item in states {
        if item.name.text.as_str() == "end" {
            return blame(&item.name);
        }
    }
    Ok(None)
}
