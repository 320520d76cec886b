//! The lines that tell where methods lead.

ghost use Rattle.std.specs.Prelude.{◌≡◌, ◌++◌, IfOk, OnOk, filter, map, option_map, string_bytes};
ghost use Rattle.std.specs.List.{flat_map};
ghost use Rattle.ts_tree.specs.Calls.{offered_in};
ghost use Rattle.ts_tree.specs.View.{method_of, state_of, target_of};
ghost use Rattle.ts_read.specs.Layout.{branch_text, listed, target_text, to_text};
ghost use Rattle.lsp_defined.specs.Lines.{offer_line, line_of, is_meant, lines_of};

use crate::spots::Spot;
use mg_text::{Memory, Text};
use std::alloc::Global;
use ts_tree::{Branch, Method, State, Target, To, Typestate};

// Appends the name of a state, `end`, or nothing for a number that no state has.
fn put_to(out: &mut String, states: &[State], to: To) -> Result<(), Memory>
    ensures { OnOk result (string_bytes out.new ≡ string_bytes out.old ++ to_text (map state_of states.now) to) }
{
    match to {
        To::State(number) => {
            if let Some(state) = states.get(number as usize) {
                out.push_str(state.name.as_str())?;
            }
            Ok(())
        }
        To::End => {
            out.push_str("end")?;
            Ok(())
        }
    }
}

// Appends `LABEL: STATE`.
fn put_branch(out: &mut String, states: &[State], branch: &Branch) -> Result<(), Memory>
    ensures { OnOk result (string_bytes out.new ≡ string_bytes out.old ++ branch_text (map state_of states.now) branch.now) }
{
    out.push_str(branch.label.as_str())?;
    out.push_str(": ")?;
    put_to(out, states, branch.to)?;
    Ok(())
}

// Appends these with commas between them.
fn put_branches(out: &mut String, states: &[State], branches: &[Branch]) -> Result<(), Memory>
    ensures { OnOk result (string_bytes out.new ≡ string_bytes out.old
        ++ listed (map (branch_text (map state_of states.now)) branches.now)) }
{
    let [first, rest @ ..] = branches else {
        return Ok(());
    };
    put_branch(out, states, first)?;
    for branch in rest {
        out.push_str(", ")?;
        put_branch(out, states, branch)?;
    }
    Ok(())
}

// Appends where a method leads.
fn put_target(out: &mut String, states: &[State], target: &Target) -> Result<(), Memory>
    ensures { OnOk result (string_bytes out.new ≡ string_bytes out.old ++ target_text (map state_of states.now) (target_of target.now)) }
{
    match target {
        Target::One(to) => {
            put_to(out, states, *to)?;
            Ok(())
        }
        Target::ByAnswer(branches) => {
            out.push_str("<")?;
            put_branches(out, states, branches.as_slice())?;
            out.push_str(">")?;
            Ok(())
        }
    }
}

// Appends the line of a method of a state.
fn put_offer(
    out: &mut String,
    states: &[State],
    state: &State,
    method: &Method,
) -> Result<(), Memory>
    ensures { OnOk result (string_bytes out.new ≡ string_bytes out.old
        ++ offer_line (map state_of states.now) (state_of state.now) (method_of method.now)) }
{
    out.push_str(state.name.as_str())?;
    out.push_str(": ")?;
    out.push_str(method.name.as_str())?;
    out.push_str(" -> ")?;
    put_target(out, states, &method.target)?;
    out.push_str("\n")?;
    Ok(())
}

// The method of this name, if it is one of these.
#[tactic(auto, using(crate::proofs::Offering::offering))]
fn offered<'a>(methods: &'a [Method], name: &str) -> Option<&'a Method>
    ensures { option_map (λ m. method_of m.now) result ≡ offered_in (map method_of methods.now) name.now }
{
    for method in methods {
        if method.name.as_str() == name {
            return Some(method);
        }
    }
    None
}

// Appends the line of the method of this name, if a state offers it.
fn put_line(out: &mut String, states: &[State], state: &State, method: &Text) -> Result<(), Memory>
    ensures { OnOk result (string_bytes out.new ≡ string_bytes out.old
        ++ line_of (map state_of states.now) method.now (state_of state.now)) }
{
    match offered(state.methods.as_slice(), method.as_str()) {
        Some(method) => put_offer(out, states, state, method),
        None => Ok(()),
    }
}

// Whether a state is the one of this name, or none is named.
fn is_meant(name: Option<&Text>, state: &State) -> bool
    ensures { result ≡ is_meant (option_map (λ n. n.now) name.entry) (state_of state.now) }
{
    match name {
        Some(name) => state.name.as_str() == name.as_str(),
        None => true,
    }
}

// Appends the lines that states have of a spot.
fn put_among(out: &mut String, states: &[State], spot: &Spot) -> Result<(), Memory>
    ensures { OnOk result (string_bytes out.new ≡ string_bytes out.old ++ flat_map (line_of (map state_of states.now) spot.now.method)
        (filter (is_meant spot.now.state) (map state_of states.now))) }
{
    for state in states {
        if is_meant(spot.state.as_ref(), state) {
            put_line(out, states, state, &spot.method)?;
        }
    }
    Ok(())
}

/// The lines that a typestate has of a spot: for each state that is meant and offers the method where that leads.
///
/// # Errors
/// `Memory` only.
pub(crate) fn lines_of(alloc: Global, typestate: &Typestate, spot: &Spot) -> Result<Text, Memory>
    ensures { IfOk result (λ t. t ≡ lines_of typestate.now spot.now) }
{
    let mut lines = String::new(alloc);
    put_among(&mut lines, typestate.states.as_slice(), spot)?;
    Ok(Text::from_string(lines))
}
