//! What a role does, action by action in the order of the text.

ghost use Rattle.std.specs.Prelude.{◌≡◌, ◌++◌, ◌↔◌, ℕ, IfOk, OnOk, IsTrue, map, option_map};
ghost use Rattle.scr_tree.specs.Meaning.{message_of};
ghost use Rattle.scr_tree.specs.View.{front, statements};
ghost use Rattle.scr_tree.specs.Tree.{Nothing};
ghost use Rattle.scr_tree.specs.Actions.{actions, actions_in, all_actions, next, next_in, peer_in};
ghost use Rattle.scr_tree.specs.Written.{part_written, me_in, body_of};
ghost use Rattle.scr_judge.specs.inner.View.{act};
ghost use Rattle.scr_tree.specs.View.{bodies};

use crate::labels::first_message;
use mg_text::{List, Memory, Place, Text};
use scr_tree::{Message, Statement, WrittenPart, call_name, label_call};
use std::alloc::Global;

/// What a call does: a message, or a look at which branch of a numbered choice was taken.
#[derive(Clone, Copy)]
pub enum Deed<'a> {
    Moves(&'a Message),
    Looks(u32),
}

/// A call, and what it does.
#[derive(Drop)]
pub struct Action<'a> {
    pub place: Place,
    pub call: Text,
    pub deed: Deed<'a>,
}

/// Appends the actions of protocols, whose choices elsewhere are numbered from `number` on.
#[tactic(auto, using(crate::proofs::Collecting::part_steps))]
pub fn collect_parts<'a>(
    alloc: Global,
    out: &mut Vec<Action<'a>>,
    number: u32,
    parts: &'a [WrittenPart],
) -> Result<(), Memory>
    ensures { OnOk result (map act out.new.items ≡ map act out.old.items ++ all_actions me_in body_of number (map part_written parts.now)) }
{
    let mut number = number;
    for part in parts {
        number = collect_all(alloc, &part.me.name, out, number, part.body.as_slice())?;
    }
    Ok(())
}

/// Appends the actions of statements, whose choices elsewhere are numbered from `number` on.
/// The answer is the number that is left for the next one.
#[tactic(auto, using(crate::proofs::Collecting::all_steps))]
#[cycle(actions)]
pub fn collect_all<'a>(
    alloc: Global,
    me: &Text,
    out: &mut Vec<Action<'a>>,
    number: u32,
    body: &'a [Statement],
) -> Result<u32, Memory>
    ensures next { IfOk result (λ n. n ≡ next me.now number (statements body.now)) }
    ensures actions { OnOk result (map act out.new.items ≡ map act out.old.items ++ actions me.now number (statements body.now)) }
{
    let mut number = number;
    for statement in body {
        number = collect_at(alloc, me, out, number, statement)?;
    }
    Ok(number)
}

#[tactic(auto, using(crate::proofs::Collecting::alone))]
#[cycle(actions)]
fn collect_at<'a>(
    alloc: Global,
    me: &Text,
    out: &mut Vec<Action<'a>>,
    number: u32,
    statement: &'a Statement,
) -> Result<u32, Memory>
    ensures next { IfOk result (λ n. n ≡ next me.now number (front statement.now Nothing)) }
    ensures actions { OnOk result (map act out.new.items ≡ map act out.old.items ++ actions me.now number (front statement.now Nothing)) }
{
    match statement {
        Statement::Message(message) => {
            let call = call_name(alloc, message)?;
            out.push(Action {
                place: message.place,
                call,
                deed: Deed::Moves(message),
            })?;
            Ok(number)
        }
        Statement::Choice {
            place,
            at,
            branches,
        } => {
            let branches = branches.as_slice();
            if *at == *me {
                collect_in(alloc, me, out, number, branches)
            } else {
                if let Some(peer) = first_peer(branches) {
                    let call = label_call(alloc, me.as_str(), number, peer.as_str())?;
                    out.push(Action {
                        place: *place,
                        call,
                        deed: Deed::Looks(number),
                    })?;
                }
                let Some(after) = number.checked_add(1) else {
                    return Err(Memory);
                };
                let next = collect_in(alloc, me, out, after, branches)?;
                Ok(next)
            }
        }
        Statement::Rec { body, .. } => collect_all(alloc, me, out, number, body.as_slice()),
        Statement::Continue { .. } => Ok(number),
        Statement::Do { .. } => Ok(number),
    }
}

#[tactic(auto, using(crate::proofs::Collecting::in_steps))]
#[cycle(actions)]
fn collect_in<'a>(
    alloc: Global,
    me: &Text,
    out: &mut Vec<Action<'a>>,
    number: u32,
    branches: &'a [List<Statement>],
) -> Result<u32, Memory>
    ensures next { IfOk result (λ n. n ≡ next_in me.now number (bodies branches.now)) }
    ensures actions { OnOk result (map act out.new.items ≡ map act out.old.items ++ actions_in me.now number (bodies branches.now)) }
{
    let mut number = number;
    for branch in branches {
        number = collect_all(alloc, me, out, number, branch.as_slice())?;
    }
    Ok(number)
}

// The peer of the first message of a choice.
#[tactic(auto, using(crate::proofs::Collecting::peers))]
fn first_peer(branches: &[List<Statement>]) -> Option<&Text>
    ensures { option_map (λ p. p.now) result ≡ peer_in (bodies branches.now) }
{
    match branches.first() {
        None => None,
        Some(branch) => match first_message(branch.as_slice()) {
            None => None,
            Some(message) => Some(&message.peer),
        },
    }
}
