//! The branches of another role's choice, merged: one of them where all say the same, else a choice
//! at the role whose first message tells which branch was taken.

ghost use Rattle.std.specs.Prelude.{◌≡◌, IfOk, option_map};
ghost use Rattle.std.specs.HashSet.{contains_text};
ghost use Rattle.scr_tree.specs.Tree.{Nothing};
ghost use Rattle.scr_tree.specs.View.{statements, bodies};
ghost use Rattle.scr_judge.specs.inner.Seen.{none};
ghost use Rattle.scr_global.specs.Texts.{merged_text};
ghost use Rattle.scr_project.specs.inner.Merge.{agreed, telling, first_taken, tells};
ghost use Rattle.scr_project.specs.inner.View.{says_of};

use crate::part::one;
use crate::same::same_all;
use mg_text::{List, Memory, Place, Text};
use scr_judge::{add_name, no_names};
use scr_tree::{Direction, Message, Statement};
use std::alloc::Global;

/// What the choice of another role is to this one, with these branches; none where they can't be
/// merged.
#[tactic(auto, using(crate::proofs::Merging::merging))]
pub(crate) fn merged(
    alloc: Global,
    me: &Text,
    place: Place,
    branches: List<List<Statement>>,
) -> Result<Option<List<Statement>>, Memory>
    ensures { IfOk result (λ l. says_of l ≡ merged_text me.now place (bodies branches.items) Nothing) }
{
    if is_agreed(me, branches.as_slice()) {
        return Ok(branches.into_vec().into_iter().next());
    }
    match telling_peer(alloc, me, branches.as_slice())? {
        None => Ok(None),
        Some(at) => {
            let choice = Statement::Choice {
                place,
                at,
                branches,
            };
            let says = one(alloc, choice)?;
            Ok(Some(says))
        }
    }
}

// Whether there is a branch, and all say the same.
#[tactic(auto, using(crate::proofs::Merging::agreeing))]
fn is_agreed(me: &Text, branches: &[List<Statement>]) -> bool
    ensures { result ≡ agreed me.now (bodies branches.now) }
{
    let Some((first, others)) = branches.split_first() else {
        return false;
    };
    for other in others {
        if !same_all(me, other.as_slice(), first.as_slice()) {
            return false;
        }
    }
    true
}

// The peer from which each branch takes a first message, each with a label of its own.
fn telling_peer(
    alloc: Global,
    me: &Text,
    branches: &[List<Statement>],
) -> Result<Option<Text>, Memory>
    ensures { IfOk result (λ p. p ≡ telling me.now (bodies branches.now)) }
{
    let Some((first, _)) = branches.split_first() else {
        return Ok(None);
    };
    let Some(message) = first_taken(first.as_slice()) else {
        return Ok(None);
    };
    if tells(alloc, &message.peer, branches)? {
        let peer = message.peer.copy()?;
        Ok(Some(peer))
    } else {
        Ok(None)
    }
}

// Whether each branch takes a first message from the peer, each with a label of its own.
#[tactic(auto, using(crate::proofs::Merging::telling_steps))]
fn tells(alloc: Global, peer: &Text, branches: &[List<Statement>]) -> Result<bool, Memory>
    ensures { IfOk result (λ b. b ≡ tells peer.now none (bodies branches.now)) }
{
    let mut labels = no_names(alloc);
    for branch in branches {
        let Some(message) = first_taken(branch.as_slice()) else {
            return Ok(false);
        };
        if message.peer != *peer {
            return Ok(false);
        }
        let label = String::from_str(alloc, message.label.as_str())?;
        if !add_name(&mut labels, label)? {
            return Ok(false);
        }
    }
    Ok(true)
}

// The message that statements begin with, if the role takes it.
#[tactic(auto, using(crate::proofs::Merging::takings))]
fn first_taken(body: &[Statement]) -> Option<&Message>
    ensures { option_map (λ m. m.now) result ≡ first_taken (statements body.now) }
{
    match body.first() {
        None => None,
        Some(statement) => match statement {
            Statement::Message(message) => match message.direction {
                Direction::To => None,
                Direction::From => Some(message),
            },
            Statement::Choice { .. } => None,
            Statement::Rec { .. } => None,
            Statement::Continue { .. } => None,
            Statement::Do { .. } => None,
        },
    }
}
