//! How the branches of a choice begin.

ghost use Rattle.std.specs.Prelude.{◌≡◌, None};
ghost use Rattle.scr_judge.specs.inner.OnSpot.{is_send, some_empty, all_send, one_peer, uniform};
ghost use Rattle.scr_tree.specs.View.{bodies};

use crate::labels::first_message;
use mg_text::{List, Text};
use scr_tree::{Direction, Statement};

/// Whether a branch is empty.
#[tactic(auto, using(crate::proofs::SpotSteps::empties))]
pub fn has_empty(branches: &[List<Statement>]) -> bool
    ensures { result ≡ some_empty (bodies branches.now) }
{
    for branch in branches {
        if branch.as_slice().is_empty() {
            return true;
        }
    }
    false
}

/// Whether the first messages of a choice at a role go together, in a protocol of `me`.
pub fn is_uniform(me: &Text, at: &Text, branches: &[List<Statement>]) -> bool
    ensures { result ≡ uniform me.now at.now (bodies branches.now) }
{
    if *at == *me {
        all_send(branches)
    } else {
        one_peer(branches)
    }
}

// Whether the first messages are sends.
#[tactic(auto, using(crate::proofs::SpotSteps::sends))]
fn all_send(branches: &[List<Statement>]) -> bool
    ensures { result ≡ all_send (bodies branches.now) }
{
    for branch in branches {
        if let Some(message) = first_message(branch.as_slice()) {
            if !is_send(message.direction) {
                return false;
            }
        }
    }
    true
}

// Whether the first messages are receives from one role.
#[tactic(auto, using(crate::proofs::SpotSteps::peers))]
fn one_peer(branches: &[List<Statement>]) -> bool
    ensures { result ≡ one_peer None (bodies branches.now) }
{
    let mut known: Option<&Text> = None;
    for branch in branches {
        if let Some(message) = first_message(branch.as_slice()) {
            if is_send(message.direction) {
                return false;
            }
            match known {
                None => known = Some(&message.peer),
                Some(peer) => {
                    if message.peer != *peer {
                        return false;
                    }
                }
            }
        }
    }
    true
}

fn is_send(direction: Direction) -> bool
    ensures { result ≡ is_send direction }
{
    match direction {
        Direction::To => true,
        Direction::From => false,
    }
}
