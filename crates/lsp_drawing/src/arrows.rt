//! The diagram of a typestate: an arrow for each method, or for each label that it answers with.
//! Each function appends what its part of the diagram says, and leaves what stands before it.

ghost use Rattle.std.specs.Prelude.{◌≡◌, ◌++◌, IfOk, OnOk, string_bytes, map, codes};
ghost use Rattle.std.specs.List.{flat_map};
ghost use Rattle.ts_tree.specs.View.{target_of, method_of, state_of};
ghost use Rattle.ts_read.specs.Layout.{type_text, listed};
ghost use Rattle.lsp_drawing.specs.Diagrams.{end_text, arrow, call_text, branch_arrow, target_arrows, method_arrows};
ghost use Rattle.lsp_drawing.specs.Diagrams.{drop_arrow, state_arrows, first_arrow, diagram};

use mg_text::{Memory, Text};
use std::alloc::Global;
use ts_tree::{Branch, Method, State, Target, To, TypeName, Typestate};

/// The diagram of a typestate: where an object begins, and then the arrows of each state. Where a
/// method answers with labels each has an arrow. A state that objects may be left in has one that
/// is called `drop`.
///
/// # Errors
/// `Memory` only.
pub fn diagram(alloc: Global, typestate: &Typestate) -> Result<Text, Memory>
    ensures { IfOk result (λ t. t ≡ diagram typestate.now) }
{
    let mut out = String::from_str(alloc, "stateDiagram-v2\n")?;
    put_first(&mut out, typestate.states.as_slice(), typestate.initial())?;
    put_states(&mut out, alloc, typestate.states.as_slice())?;
    Ok(Text::from_string(out))
}

// Where an object begins.
fn put_first(out: &mut String, states: &[State], initial: To) -> Result<(), Memory>
    ensures { OnOk result (string_bytes out.new ≡ string_bytes out.old ++ first_arrow (map state_of states.now) initial) }
{
    match initial {
        To::State(_) => {
            out.push_str("    [*] --> ")?;
            out.push_str(end_of(states, initial))?;
            out.push_str("\n")?;
            Ok(())
        }
        To::End => Ok(()),
    }
}

// The arrows of states.
fn put_states(out: &mut String, alloc: Global, states: &[State]) -> Result<(), Memory>
    ensures { OnOk result (string_bytes out.new ≡ string_bytes out.old ++ flat_map (state_arrows (map state_of states.now))
        (map state_of states.now)) }
{
    for state in states {
        put_state(out, alloc, states, state)?;
    }
    Ok(())
}

// The arrows of a state.
fn put_state(out: &mut String, alloc: Global, states: &[State], state: &State) -> Result<(), Memory>
    ensures { OnOk result (string_bytes out.new ≡ string_bytes out.old ++ state_arrows (map state_of states.now) (state_of state.now)) }
{
    let from = state.name.as_str();
    put_methods(out, alloc, states, from, state.methods.as_slice())?;
    put_drop(out, from, state.drops)
}

// The arrow of a state that objects may be left in.
fn put_drop(out: &mut String, from: &str, drops: bool) -> Result<(), Memory>
    ensures { OnOk result (string_bytes out.new ≡ string_bytes out.old ++ drop_arrow from.now drops) }
{
    if drops {
        put_ends(out, from, "[*]")?;
        out.push_str("drop\n")?;
    }
    Ok(())
}

// The arrows of methods.
fn put_methods(
    out: &mut String,
    alloc: Global,
    states: &[State],
    from: &str,
    methods: &[Method],
) -> Result<(), Memory>
    ensures { OnOk result (string_bytes out.new ≡ string_bytes out.old
        ++ flat_map (method_arrows (map state_of states.now) from.now) (map method_of methods.now)) }
{
    for method in methods {
        put_method(out, alloc, states, from, method)?;
    }
    Ok(())
}

// The arrows of a method.
fn put_method(
    out: &mut String,
    alloc: Global,
    states: &[State],
    from: &str,
    method: &Method,
) -> Result<(), Memory>
    ensures { OnOk result (string_bytes out.new ≡ string_bytes out.old
        ++ method_arrows (map state_of states.now) from.now (method_of method.now)) }
{
    let call = call_of(alloc, method)?;
    match &method.target {
        Target::One(to) => put_arrow(out, from, end_of(states, *to), call.as_str()),
        Target::ByAnswer(branches) => {
            put_branches(out, alloc, states, from, call.as_str(), branches.as_slice())
        }
    }
}

// The arrow of a method that leads to one place.
fn put_arrow(out: &mut String, from: &str, to: &str, call: &str) -> Result<(), Memory>
    ensures { OnOk result (string_bytes out.new ≡ string_bytes out.old ++ arrow from.now to.now call.now) }
{
    put_ends(out, from, to)?;
    out.push_str(call)?;
    out.push_str("\n")?;
    Ok(())
}

// The arrows of a method that answers with labels.
fn put_branches(
    out: &mut String,
    alloc: Global,
    states: &[State],
    from: &str,
    call: &str,
    branches: &[Branch],
) -> Result<(), Memory>
    ensures { OnOk result (string_bytes out.new ≡ string_bytes out.old
        ++ flat_map (branch_arrow (map state_of states.now) from.now call.now) branches.now) }
{
    for branch in branches {
        put_branch(out, alloc, states, from, call, branch)?;
    }
    Ok(())
}

// The arrow of a label.
fn put_branch(
    out: &mut String,
    alloc: Global,
    states: &[State],
    from: &str,
    call: &str,
    branch: &Branch,
) -> Result<(), Memory>
    ensures { OnOk result (string_bytes out.new ≡ string_bytes out.old
        ++ branch_arrow (map state_of states.now) from.now call.now branch.now) }
{
    let answered = answered(alloc, call, branch.label.as_str())?;
    put_arrow(out, from, end_of(states, branch.to), answered.as_str())
}

// A call, and the label that it answers with.
fn answered(alloc: Global, call: &str, label: &str) -> Result<String, Memory>
    ensures { IfOk result (λ s. string_bytes s ≡ call.now ++ codes " = " ++ label.now) }
{
    let mut text = String::from_str(alloc, call)?;
    text.push_str(" = ")?;
    text.push_str(label)?;
    Ok(text)
}

// An arrow up to what is written at it.
fn put_ends(out: &mut String, from: &str, to: &str) -> Result<(), Memory>
    ensures { OnOk result (string_bytes out.new ≡ string_bytes out.old
        ++ codes "    " ++ from.now ++ codes " --> " ++ to.now ++ codes " : ") }
{
    out.push_str("    ")?;
    out.push_str(from)?;
    out.push_str(" --> ")?;
    out.push_str(to)?;
    out.push_str(" : ")?;
    Ok(())
}

// Where an arrow leads: a state by its name, or the end.
fn end_of(states: &[State], to: To) -> &str
    ensures { result.now ≡ end_text (map state_of states.now) to }
{
    match to {
        To::State(number) => match states.get(number as usize) {
            Some(state) => state.name.as_str(),
            None => "",
        },
        To::End => "[*]",
    }
}

// A method with the types of its parameters.
fn call_of(alloc: Global, method: &Method) -> Result<String, Memory>
    ensures { IfOk result (λ s. string_bytes s ≡ call_text (method_of method.now)) }
{
    let mut call = String::from_str(alloc, method.name.as_str())?;
    call.push_str("(")?;
    put_types(&mut call, method.params.as_slice())?;
    call.push_str(")")?;
    Ok(call)
}

// The names of types, with commas between them.
fn put_types(out: &mut String, types: &[TypeName]) -> Result<(), Memory>
    ensures { OnOk result (string_bytes out.new ≡ string_bytes out.old ++ listed (map type_text types.now)) }
{
    let [first, rest @ ..] = types else {
        return Ok(());
    };
    put_type(out, first)?;
    for name in rest {
        out.push_str(", ")?;
        put_type(out, name)?;
    }
    Ok(())
}

// The name of a type.
fn put_type(out: &mut String, name: &TypeName) -> Result<(), Memory>
    ensures { OnOk result (string_bytes out.new ≡ string_bytes out.old ++ type_text name.now) }
{
    let text = match name {
        TypeName::Void => "void",
        TypeName::Int => "int",
        TypeName::Boolean => "boolean",
        TypeName::Text => "String",
        TypeName::Named(name) => name.as_str(),
    };
    out.push_str(text)?;
    Ok(())
}
