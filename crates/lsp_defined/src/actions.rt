//! What the role of a protocol does, action by action in the order of the text.

ghost use Rattle.std.specs.Prelude.{◌≡◌, ◌++◌, IfOk, OnOk, map, option_map};
ghost use Rattle.scr_tree.specs.Local.{tree_of};
ghost use Rattle.scr_tree.specs.Said.{first_said};
ghost use Rattle.scr_tree.specs.View.{front, statements, bodies, part_of};
ghost use Rattle.scr_tree.specs.Tree.{Nothing, body_in, other};
ghost use Rattle.scr_tree.specs.Actions.{actions, actions_in, all_actions, looked, next, next_in, peer_in};
ghost use Rattle.lsp_defined.specs.Called.{actions_of, role_in};
ghost use Rattle.lsp_defined.specs.inner.View.{act};

use mg_text::{List, Memory, Place, Text};
use scr_tree::{Local, Message, Part, Statement, call_name, label_call};
use std::alloc::Global;

/// What a call does: a message, or a look at which branch of a numbered choice was taken.
#[derive(Clone, Copy)]
pub(crate) enum Deed<'a> {
    Moves(&'a Message),
    Looks(u32),
}

/// A call, where its word stands, and what it does.
#[derive(Drop)]
pub(crate) struct Action<'a> {
    pub place: Place,
    pub call: Text,
    pub deed: Deed<'a>,
}

/// What the role of a protocol does, in the order of the text of its file.
///
/// # Errors
/// `Memory` only.
pub(crate) fn actions_of<'a>(alloc: Global, local: &'a Local) -> Result<Vec<Action<'a>>, Memory>
    ensures { IfOk result (λ v. map act v.items ≡ actions_of (tree_of local.now)) }
{
    let mut found = Vec::new(alloc);
    let me = local.me();
    let next = collect_all(alloc, me, &mut found, 1, local.body().as_slice())?;
    collect_parts(alloc, me, &mut found, next, local.others().as_slice())?;
    Ok(found)
}

// Appends the actions of protocols, whose choices elsewhere are numbered from `number` on.
#[tactic(auto, using(crate::proofs::Collecting::part_steps))]
fn collect_parts<'a>(
    alloc: Global,
    me: &Text,
    out: &mut Vec<Action<'a>>,
    number: u32,
    parts: &'a [Part],
) -> Result<(), Memory>
    ensures { OnOk result (map act out.new.items ≡ map act out.old.items
        ++ all_actions (role_in me.now) body_in number (map other (map part_of parts.now))) }
{
    let mut number = number;
    for part in parts {
        number = collect_all(alloc, me, out, number, part.body.as_slice())?;
    }
    Ok(())
}

// Appends the actions of statements, whose choices elsewhere are numbered from `number` on. The answer is the number that is
// left for the next one.
#[tactic(auto, using(crate::proofs::Collecting::all_steps))]
#[cycle(actions)]
fn collect_all<'a>(
    alloc: Global,
    me: &Text,
    out: &mut Vec<Action<'a>>,
    number: u32,
    body: &'a [Statement],
) -> Result<u32, Memory>
    ensures next { IfOk result (λ n. n ≡ next me.now number (statements body.now)) }
    ensures actions { OnOk result (map act out.new.items ≡ map act out.old.items ++ actions me.now number (statements body.now)) }
{
    let mut number = number;
    for statement in body {
        number = collect_at(alloc, me, out, number, statement)?;
    }
    Ok(number)
}

#[tactic(auto, using(crate::proofs::Collecting::alone))]
#[cycle(actions)]
fn collect_at<'a>(
    alloc: Global,
    me: &Text,
    out: &mut Vec<Action<'a>>,
    number: u32,
    statement: &'a Statement,
) -> Result<u32, Memory>
    ensures next { IfOk result (λ n. n ≡ next me.now number (front statement.now Nothing)) }
    ensures actions { OnOk result (map act out.new.items ≡ map act out.old.items ++ actions me.now number (front statement.now Nothing)) }
{
    match statement {
        Statement::Message(message) => {
            let call = call_name(alloc, message)?;
            out.push(Action {
                place: message.place,
                call,
                deed: Deed::Moves(message),
            })?;
            Ok(number)
        }
        Statement::Choice {
            place,
            at,
            branches,
        } => {
            let branches = branches.as_slice();
            if *at == *me {
                collect_in(alloc, me, out, number, branches)
            } else {
                put_look(alloc, me, out, number, *place, branches)?;
                let Some(after) = number.checked_add(1) else {
                    return Err(Memory);
                };
                collect_in(alloc, me, out, after, branches)
            }
        }
        Statement::Rec { body, .. } => collect_all(alloc, me, out, number, body.as_slice()),
        Statement::Continue { .. } => Ok(number),
        Statement::Do { .. } => Ok(number),
    }
}

#[tactic(auto, using(crate::proofs::Collecting::in_steps))]
#[cycle(actions)]
fn collect_in<'a>(
    alloc: Global,
    me: &Text,
    out: &mut Vec<Action<'a>>,
    number: u32,
    branches: &'a [List<Statement>],
) -> Result<u32, Memory>
    ensures next { IfOk result (λ n. n ≡ next_in me.now number (bodies branches.now)) }
    ensures actions { OnOk result (map act out.new.items ≡ map act out.old.items ++ actions_in me.now number (bodies branches.now)) }
{
    let mut number = number;
    for branch in branches {
        number = collect_all(alloc, me, out, number, branch.as_slice())?;
    }
    Ok(number)
}

// Appends the look at a choice elsewhere of this number, if its first branch begins with a message.
fn put_look<'a>(
    alloc: Global,
    me: &Text,
    out: &mut Vec<Action<'a>>,
    number: u32,
    place: Place,
    branches: &[List<Statement>],
) -> Result<(), Memory>
    ensures { OnOk result (map act out.new.items ≡ map act out.old.items ++ looked me.now number place (peer_in (bodies branches.now))) }
{
    let Some(peer) = first_peer(branches) else {
        return Ok(());
    };
    let call = label_call(alloc, me.as_str(), number, peer.as_str())?;
    out.push(Action {
        place,
        call,
        deed: Deed::Looks(number),
    })?;
    Ok(())
}

// The peer of the first message of a choice.
#[tactic(auto, using(crate::proofs::Collecting::peers))]
fn first_peer(branches: &[List<Statement>]) -> Option<&Text>
    ensures { option_map (λ p. p.now) result ≡ peer_in (bodies branches.now) }
{
    match branches.first() {
        None => None,
        Some(branch) => match first_message(branch.as_slice()) {
            None => None,
            Some(message) => Some(&message.peer),
        },
    }
}

// The message that statements begin with.
#[tactic(auto, using(crate::proofs::Collecting::firsts))]
fn first_message(body: &[Statement]) -> Option<&Message>
    ensures { option_map (λ m. m.now) result ≡ first_said (statements body.now) }
{
    match body.first() {
        None => None,
        Some(statement) => match statement {
            Statement::Message(message) => Some(message),
            Statement::Choice { .. } => None,
            Statement::Rec { .. } => None,
            Statement::Continue { .. } => None,
            Statement::Do { .. } => None,
        },
    }
}
