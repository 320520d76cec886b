//! The lines of states: which methods each offers.

ghost use Rattle.std.specs.Prelude.{◌≡◌, ◌++◌, map, OnOk, option_map, string_bytes};
ghost use Rattle.std.specs.List.{flat_map};
ghost use Rattle.mg_sets.specs.Sets.{members};
ghost use Rattle.ts_tree.specs.View.{state_of, method_of};
ghost use Rattle.use_elements.specs.Mappings.{typestate_or_end};
ghost use Rattle.lsp_sights.specs.Texts.{offered_text, state_line, line_of_state, member_line, state_lines};

use mg_sets::StateSet;
use mg_text::Memory;
use ts_tree::{Method, State, Typestate};

// Appends the names of methods, each with a blank before it.
fn put_offered(out: &mut String, methods: &[Method]) -> Result<(), Memory>
    ensures { OnOk result (string_bytes out.new ≡ string_bytes out.old ++ flat_map offered_text (map method_of methods.now)) }
{
    for method in methods {
        out.push_str(" ")?;
        out.push_str(method.name.as_str())?;
    }
    Ok(())
}

// Appends the line of a state: which methods it offers.
fn put_state(out: &mut String, state: &State) -> Result<(), Memory>
    ensures { OnOk result (string_bytes out.new ≡ string_bytes out.old ++ state_line (state_of state.now)) }
{
    out.push_str(state.name.as_str())?;
    out.push_str(":")?;
    put_offered(out, state.methods.as_slice())?;
    out.push_str("\n")?;
    Ok(())
}

// Appends the line of the state of a number.
#[tactic(auto, using(crate::proofs::Members::numbered))]
fn put_numbered(out: &mut String, typestate: &Typestate, state: usize) -> Result<(), Memory>
    ensures { OnOk result (string_bytes out.new ≡ string_bytes out.old ++ line_of_state typestate.now state) }
{
    match typestate.states.as_slice().get(state) {
        Some(state) => put_state(out, state),
        None => Ok(()),
    }
}

// Appends the line of an element by its place, where it is a state.
#[tactic(auto, using(crate::proofs::Members::members))]
fn put_member(out: &mut String, typestate: Option<&Typestate>, element: usize) -> Result<(), Memory>
    ensures { OnOk result (string_bytes out.new ≡ string_bytes out.old
        ++ member_line (typestate_or_end (option_map (λ t. t.now) typestate.entry)) element) }
{
    let Some(typestate) = typestate else {
        return Ok(());
    };
    if element < 3 {
        return Ok(());
    }
    put_numbered(out, typestate, element - 3)
}

/// Appends a line for each state of a set: which methods it offers.
///
/// # Errors
/// `Memory` only.
pub(crate) fn put_states(
    out: &mut String,
    typestate: Option<&Typestate>,
    set: &StateSet,
) -> Result<(), Memory>
    ensures { OnOk result (string_bytes out.new ≡ string_bytes out.old
        ++ state_lines (typestate_or_end (option_map (λ t. t.now) typestate.entry)) (members set.now)) }
{
    for element in set.iter() {
        put_member(out, typestate, element)?;
    }
    Ok(())
}
