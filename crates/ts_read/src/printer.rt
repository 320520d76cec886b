//! The text of a typestate: a line for each state, method and closing brace, four blanks a level.
//! Each function appends what its part of the layout says, and leaves what stands before it.

ghost use Rattle.std.specs.Prelude.{◌≡◌, ◌++◌, OnOk, string_bytes, map};
ghost use Rattle.std.specs.List.{flat_map};
ghost use Rattle.ts_tree.specs.View.{target_of, method_of, state_of};
ghost use Rattle.ts_read.specs.Layout.{layout, listed, type_text, to_text, branch_text, target_text, method_text, drop_line, entry_lines};
ghost use Rattle.ts_read.specs.Layout.{lines, state_text};
ghost use Rattle.ts_read.specs.inner.Printing.{behind};

use mg_text::Memory;
use ts_tree::{Branch, Method, State, Target, To, TypeName, Typestate};

/// Appends the text of a typestate.
pub fn print(out: &mut String, typestate: &Typestate) -> Result<(), Memory>
    ensures { OnOk result (string_bytes out.new ≡ string_bytes out.old ++ layout typestate.now) }
{
    out.push_str("typestate ")?;
    out.push_str(typestate.name.as_str())?;
    out.push_str(" {\n")?;
    print_states(out, typestate.states.as_slice())?;
    out.push_str("}\n")?;
    Ok(())
}

/// Appends the text of states, one after another.
pub fn print_states(out: &mut String, states: &[State]) -> Result<(), Memory>
    ensures { OnOk result (string_bytes out.new ≡ string_bytes out.old ++ flat_map (state_text (map state_of states.now))
        (map state_of states.now)) }
{
    for state in states {
        print_state(out, states, state)?;
    }
    Ok(())
}

fn print_state(out: &mut String, states: &[State], state: &State) -> Result<(), Memory>
    ensures { OnOk result (string_bytes out.new ≡ string_bytes out.old ++ state_text (map state_of states.now) (state_of state.now)) }
{
    out.push_str("    ")?;
    out.push_str(state.name.as_str())?;
    out.push_str(" = {\n")?;
    print_entries(out, states, state.methods.as_slice(), state.drops)?;
    out.push_str("    }\n")?;
    Ok(())
}

// `drop: end` as the only entry of a state, if it is marked so.
fn print_drop(out: &mut String, drops: bool) -> Result<(), Memory>
    ensures { OnOk result (string_bytes out.new ≡ string_bytes out.old ++ lines (drop_line drops)) }
{
    if drops {
        out.push_str("        drop: end\n")?;
    }
    Ok(())
}

// `drop: end` behind methods, if the state is marked so.
fn print_drop_behind(out: &mut String, drops: bool) -> Result<(), Memory>
    ensures { OnOk result (string_bytes out.new ≡ string_bytes out.old ++ behind (drop_line drops)) }
{
    if drops {
        out.push_str(",\n        drop: end")?;
    }
    Ok(())
}

fn print_entries(
    out: &mut String,
    states: &[State],
    methods: &[Method],
    drops: bool,
) -> Result<(), Memory>
    ensures { OnOk result (string_bytes out.new ≡ string_bytes out.old
        ++ lines (entry_lines (map state_of states.now) (map method_of methods.now) drops)) }
{
    let [first, rest @ ..] = methods else {
        return print_drop(out, drops);
    };
    print_method(out, states, first)?;
    for method in rest {
        out.push_str(",\n")?;
        print_method(out, states, method)?;
    }
    print_drop_behind(out, drops)?;
    out.push_str("\n")?;
    Ok(())
}

fn print_method(out: &mut String, states: &[State], method: &Method) -> Result<(), Memory>
    ensures { OnOk result (string_bytes out.new ≡ string_bytes out.old ++ method_text (map state_of states.now) (method_of method.now)) }
{
    out.push_str("        ")?;
    print_type(out, &method.result)?;
    out.push_str(" ")?;
    out.push_str(method.name.as_str())?;
    out.push_str("(")?;
    print_types(out, method.params.as_slice())?;
    out.push_str("): ")?;
    print_target(out, states, &method.target)?;
    Ok(())
}

fn print_types(out: &mut String, types: &[TypeName]) -> Result<(), Memory>
    ensures { OnOk result (string_bytes out.new ≡ string_bytes out.old ++ listed (map type_text types.now)) }
{
    let [first, rest @ ..] = types else {
        return Ok(());
    };
    print_type(out, first)?;
    for name in rest {
        out.push_str(", ")?;
        print_type(out, name)?;
    }
    Ok(())
}

fn print_type(out: &mut String, name: &TypeName) -> Result<(), Memory>
    ensures { OnOk result (string_bytes out.new ≡ string_bytes out.old ++ type_text name.now) }
{
    let text = match name {
        TypeName::Void => "void",
        TypeName::Int => "int",
        TypeName::Boolean => "boolean",
        TypeName::Text => "String",
        TypeName::Named(name) => name.as_str(),
    };
    out.push_str(text)?;
    Ok(())
}

fn print_target(out: &mut String, states: &[State], target: &Target) -> Result<(), Memory>
    ensures { OnOk result (string_bytes out.new ≡ string_bytes out.old ++ target_text (map state_of states.now) (target_of target.now)) }
{
    match target {
        Target::One(to) => {
            print_to(out, states, *to)?;
            Ok(())
        }
        Target::ByAnswer(branches) => {
            out.push_str("<")?;
            print_branches(out, states, branches.as_slice())?;
            out.push_str(">")?;
            Ok(())
        }
    }
}

fn print_branches(out: &mut String, states: &[State], branches: &[Branch]) -> Result<(), Memory>
    ensures { OnOk result (string_bytes out.new ≡ string_bytes out.old
        ++ listed (map (branch_text (map state_of states.now)) branches.now)) }
{
    let [first, rest @ ..] = branches else {
        return Ok(());
    };
    print_branch(out, states, first)?;
    for branch in rest {
        out.push_str(", ")?;
        print_branch(out, states, branch)?;
    }
    Ok(())
}

fn print_branch(out: &mut String, states: &[State], branch: &Branch) -> Result<(), Memory>
    ensures { OnOk result (string_bytes out.new ≡ string_bytes out.old ++ branch_text (map state_of states.now) branch.now) }
{
    out.push_str(branch.label.as_str())?;
    out.push_str(": ")?;
    print_to(out, states, branch.to)?;
    Ok(())
}

// The name of the state, or nothing for a number out of range.
fn print_to(out: &mut String, states: &[State], to: To) -> Result<(), Memory>
    ensures { OnOk result (string_bytes out.new ≡ string_bytes out.old ++ to_text (map state_of states.now) to) }
{
    match to {
        To::State(number) => {
            if let Some(state) = states.get(number as usize) {
                out.push_str(state.name.as_str())?;
            }
            Ok(())
        }
        To::End => {
            out.push_str("end")?;
            Ok(())
        }
    }
}
