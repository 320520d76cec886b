//! Printing a local protocol: without a module line and types, four spaces a level.

ghost use Rattle.std.specs.Prelude.{◌≡◌, ◌++◌, [], map, OnOk, IfOk, string_bytes};
ghost use Rattle.std.specs.List.{flat_map};
ghost use Rattle.scr_tree.specs.Local.{tree_of};
ghost use Rattle.scr_tree.specs.Tree.{Nothing, other};
ghost use Rattle.scr_tree.specs.View.{front, statements, bodies, part_of};
ghost use Rattle.scr_read.specs.Layout.{layout, part_text, part_texts, do_text, argument_list, block, lines, branch_lines, role_list};
ghost use Rattle.scr_read.specs.Layout.{indent, message_text, direction_word};

use mg_text::{List, Memory, Text};
use scr_tree::{Direction, Local, Message, Part, Statement};
use std::alloc::Global;

/// The text of a local protocol: the first one of its file, and behind it the others. The only error
/// is want of memory.
pub fn print_local(alloc: Global, local: &Local) -> Result<Text, Memory>
    ensures { IfOk result (λ t. t ≡ layout (tree_of local.now)) }
{
    let mut out = String::new(alloc);
    let me = local.me().as_str();
    let roles = local.roles().as_slice();
    let name = local.name().as_str();
    put_part(&mut out, me, roles, name, local.body().as_slice())?;
    put_others(&mut out, me, roles, local.others().as_slice())?;
    Ok(Text::from_string(out))
}

// The protocols behind the first, of a role with these roles.
#[tactic(auto, using(crate::proofs::Laid::part_steps))]
fn put_others(out: &mut String, me: &str, roles: &[Text], others: &[Part]) -> Result<(), Memory>
    ensures { OnOk result (string_bytes out.new ≡ string_bytes out.old ++ part_texts me.now roles.now
        (map other (map part_of others.now))) }
{
    for part in others {
        put_part(out, me, roles, part.name.as_str(), part.body.as_slice())?;
    }
    Ok(())
}

// A protocol of a role, with all roles.
fn put_part(
    out: &mut String,
    me: &str,
    roles: &[Text],
    name: &str,
    body: &[Statement],
) -> Result<(), Memory>
    ensures { OnOk result (string_bytes out.new ≡ string_bytes out.old ++ part_text me.now roles.now
        (record { name = name.now; body = statements body.now })) }
{
    put(out, &["local protocol ", name, " at ", me, "("])?;
    put_roles(out, roles)?;
    put(out, &[") "])?;
    put_block(out, roles, 0, body)?;
    put(out, &["\n"])?;
    Ok(())
}

// The roles, with commas between them.
#[tactic(auto, using(crate::proofs::Laid::role_steps))]
fn put_roles(out: &mut String, roles: &[Text]) -> Result<(), Memory>
    ensures { OnOk result (string_bytes out.new ≡ string_bytes out.old ++ role_list [] roles.now) }
{
    let mut before = "";
    for role in roles {
        put(out, &[before, "role ", role.as_str()])?;
        before = ", ";
    }
    Ok(())
}

// The arguments of a `do`, with commas between them.
#[tactic(auto, using(crate::proofs::Laid::argument_steps))]
fn put_arguments(out: &mut String, roles: &[Text]) -> Result<(), Memory>
    ensures { OnOk result (string_bytes out.new ≡ string_bytes out.old ++ argument_list [] roles.now) }
{
    let mut before = "";
    for role in roles {
        put(out, &[before, role.as_str()])?;
        before = ", ";
    }
    Ok(())
}

// A `do`, with all roles.
fn put_do(out: &mut String, roles: &[Text], name: &str) -> Result<(), Memory>
    ensures { OnOk result (string_bytes out.new ≡ string_bytes out.old ++ do_text roles.now name.now) }
{
    put(out, &["do ", name, "("])?;
    put_arguments(out, roles)?;
    put(out, &[");"])?;
    Ok(())
}

// Statements between braces, one level further in.
#[tactic(auto, using(crate::proofs::Laid::laid))]
#[cycle(print)]
fn put_block(out: &mut String, roles: &[Text], level: u32, body: &[Statement]) -> Result<(), Memory>
    ensures { OnOk result (string_bytes out.new ≡ string_bytes out.old ++ block roles.now level (statements body.now)) }
{
    let Some(inside) = level.checked_add(1) else {
        return Err(Memory);
    };
    put(out, &["{\n"])?;
    put_all(out, roles, inside, body)?;
    put_indent(out, level)?;
    put(out, &["}"])?;
    Ok(())
}

#[tactic(auto, using(crate::proofs::Laid::all_steps))]
#[cycle(print)]
fn put_all(out: &mut String, roles: &[Text], level: u32, body: &[Statement]) -> Result<(), Memory>
    ensures { OnOk result (string_bytes out.new ≡ string_bytes out.old ++ lines roles.now level (statements body.now)) }
{
    for statement in body {
        put_statement(out, roles, level, statement)?;
    }
    Ok(())
}

#[tactic(auto, using(crate::proofs::Laid::laid))]
#[cycle(print)]
fn put_statement(
    out: &mut String,
    roles: &[Text],
    level: u32,
    statement: &Statement,
) -> Result<(), Memory>
    ensures { OnOk result (string_bytes out.new ≡ string_bytes out.old ++ lines roles.now level (front statement.now Nothing)) }
{
    put_indent(out, level)?;
    match statement {
        Statement::Message(message) => {
            put_message(out, message)?;
            put(out, &["\n"])?;
            Ok(())
        }
        Statement::Choice { at, branches, .. } => {
            put(out, &["choice at ", at.as_str(), " "])?;
            put_branches(out, roles, level, branches.as_slice())?;
            put(out, &["\n"])?;
            Ok(())
        }
        Statement::Rec { name, body, .. } => {
            put(out, &["rec ", name.as_str(), " "])?;
            put_block(out, roles, level, body.as_slice())?;
            put(out, &["\n"])?;
            Ok(())
        }
        Statement::Continue { name, .. } => {
            put(out, &["continue ", name.as_str(), ";\n"])?;
            Ok(())
        }
        Statement::Do { name, .. } => {
            put_do(out, roles, name.as_str())?;
            put(out, &["\n"])?;
            Ok(())
        }
    }
}

#[tactic(auto, using(crate::proofs::Laid::in_steps))]
#[cycle(print)]
fn put_branches(
    out: &mut String,
    roles: &[Text],
    level: u32,
    branches: &[List<Statement>],
) -> Result<(), Memory>
    ensures { OnOk result (string_bytes out.new ≡ string_bytes out.old ++ branch_lines roles.now [] level (bodies branches.now)) }
{
    let mut before = "";
    for branch in branches {
        put(out, &[before])?;
        put_block(out, roles, level, branch.as_slice())?;
        before = " or ";
    }
    Ok(())
}

fn put_message(out: &mut String, message: &Message) -> Result<(), Memory>
    ensures { OnOk result (string_bytes out.new ≡ string_bytes out.old ++ message_text message.now) }
{
    put(out, &[message.label.as_str(), "("])?;
    out.push_str(message.payload.word())?;
    put(out, &[") "])?;
    out.push_str(direction_word(message.direction))?;
    put(out, &[" ", message.peer.as_str(), ";"])?;
    Ok(())
}

fn direction_word(direction: Direction) -> &'static str
    ensures { result.now ≡ direction_word direction }
{
    match direction {
        Direction::To => "to",
        Direction::From => "from",
    }
}

fn put_indent(out: &mut String, level: u32) -> Result<(), Memory>
    ensures { OnOk result (string_bytes out.new ≡ string_bytes out.old ++ indent level) }
{
    for _ in 0..level {
        out.push_str("    ")?;
    }
    Ok(())
}

// Texts, one after another.
fn put(out: &mut String, parts: &[&str]) -> Result<(), Memory>
    ensures { OnOk result (string_bytes out.new ≡ string_bytes out.old ++ flat_map (λ p. p.now) parts.now) }
{
    for part in parts {
        out.push_str(part)?;
    }
    Ok(())
}
