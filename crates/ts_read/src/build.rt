//! The states of a typestate, from what is written: names of states become their numbers.
//! What names nothing becomes the end; it was refused before.

ghost use Rattle.std.specs.Prelude.{◌≡◌, ◌++◌, IfOk, OnOk, map};
ghost use Rattle.std.specs.List.{flat_map};
ghost use Rattle.ts_tree.specs.View.{target_of, method_of, state_of};
ghost use Rattle.ts_parse.specs.Written.{wtarget_of, wmethod_of, wentry_of, has_drop};
ghost use Rattle.ts_read.specs.Meaning.{place_named, branch_meant, target_meant, method_meant};
ghost use Rattle.ts_read.specs.inner.Building.{entry_made, state_made};

use crate::signatures::copy_types;
use mg_text::{List, Memory, Names, Text};
use std::alloc::Global;
use ts_parse::{WrittenBranch, WrittenEntry, WrittenMethod, WrittenState, WrittenTarget};
use ts_tree::{Branch, Method, State, Target, To};

// The end, or the state of this name.
fn place_named(names: &Names, name: &Text) -> To
    ensures { result ≡ place_named names.now name.now }
{
    let text = name.as_str();
    if text == "end" {
        return To::End;
    }
    match names.find(text) {
        Some(number) => To::State(number.0),
        None => To::End,
    }
}

fn branch_meant(names: &Names, branch: &WrittenBranch) -> Result<Branch, Memory>
    ensures { IfOk result (λ b. b ≡ branch_meant names.now branch.now) }
{
    let label = branch.label.text.copy()?;
    let to = place_named(names, &branch.to.text);
    Ok(Branch { label, to })
}

fn branches_meant(
    alloc: Global,
    names: &Names,
    branches: &[WrittenBranch],
) -> Result<List<Branch>, Memory>
    ensures { IfOk result (λ l. l.items ≡ map (branch_meant names.now) branches.now) }
{
    let mut made = List::new(alloc);
    for item in branches {
        let branch = branch_meant(names, item)?;
        made.push(branch)?;
    }
    Ok(made)
}

fn target_meant(alloc: Global, names: &Names, target: &WrittenTarget) -> Result<Target, Memory>
    ensures { IfOk result (λ t. target_of t ≡ target_meant names.now (wtarget_of target.now)) }
{
    match target {
        WrittenTarget::One(to) => Ok(Target::One(place_named(names, &to.text))),
        WrittenTarget::ByAnswer(branches) => {
            let made = branches_meant(alloc, names, branches.as_slice())?;
            Ok(Target::ByAnswer(made))
        }
    }
}

fn method_meant(alloc: Global, names: &Names, method: &WrittenMethod) -> Result<Method, Memory>
    ensures { IfOk result (λ m. method_of m ≡ method_meant names.now (wmethod_of method.now)) }
{
    let type_name = method.result.copy()?;
    let name = method.name.text.copy()?;
    let params = copy_types(alloc, method.params.as_slice())?;
    let target = target_meant(alloc, names, &method.target)?;
    Ok(Method {
        result: type_name,
        name,
        params,
        target,
    })
}

// Appends the method that an entry means, if it is one.
fn push_meant(
    alloc: Global,
    names: &Names,
    made: &mut List<Method>,
    entry: &WrittenEntry,
) -> Result<(), Memory>
    ensures { OnOk result (map method_of made.new.items ≡ map method_of made.old.items ++ entry_made names.now entry.now) }
{
    match entry {
        WrittenEntry::Method(method) => {
            let method = method_meant(alloc, names, method)?;
            made.push(method)?;
            Ok(())
        }
        WrittenEntry::DropEnd(_) => Ok(()),
    }
}

fn methods_meant(
    alloc: Global,
    names: &Names,
    entries: &[WrittenEntry],
) -> Result<List<Method>, Memory>
    ensures { IfOk result (λ l. map method_of l.items ≡ flat_map (entry_made names.now) entries.now) }
{
    let mut made = List::new(alloc);
    for item in entries {
        push_meant(alloc, names, &mut made, item)?;
    }
    Ok(made)
}

// Whether one of the entries is `drop: end`.
fn has_drop(entries: &[WrittenEntry]) -> bool
    ensures { result ≡ has_drop (map wentry_of entries.now) }
{
    for item in entries {
        if matches!(item, WrittenEntry::DropEnd(_)) {
            return true;
        }
    }
    false
}

fn state_meant(alloc: Global, names: &Names, state: &WrittenState) -> Result<State, Memory>
    ensures { IfOk result (λ s. state_of s ≡ state_made names.now state.now) }
{
    let name = state.name.text.copy()?;
    let methods = methods_meant(alloc, names, state.entries.as_slice())?;
    let drops = has_drop(state.entries.as_slice());
    Ok(State {
        name,
        methods,
        drops,
    })
}

/// The states that are written, with these names.
pub(crate) fn states_meant(
    alloc: Global,
    names: &Names,
    states: &[WrittenState],
) -> Result<List<State>, Memory>
    ensures { IfOk result (λ l. map state_of l.items ≡ map (state_made names.now) states.now) }
{
    let mut made = List::new(alloc);
    for item in states {
        let state = state_meant(alloc, names, item)?;
        made.push(state)?;
    }
    Ok(made)
}
