//! Control comes to each statement.

ghost use Rattle.std.specs.Prelude.{◌≡◌, [], IfOk, Some};
ghost use Rattle.mg_read.specs.First.{Judged};
ghost use Rattle.scr_tree.specs.View.{front, statements};
ghost use Rattle.scr_tree.specs.Tree.{Nothing};
ghost use Rattle.scr_tree.specs.Spots.{spots};
ghost use Rattle.mg_read.specs.Culprit.{culprit};
ghost use Rattle.scr_tree.specs.Control.{falls, some_falls};
ghost use Rattle.scr_tree.specs.Conditions.{Unreachable};
ghost use Rattle.scr_judge.specs.inner.Finding.{unreachable, unreachable_in, stands};
ghost use Rattle.scr_judge.specs.inner.View.{found, culprit_of};
ghost use Rattle.scr_tree.specs.View.{bodies};

use crate::culprit::Culprit;
use crate::truth::either;
use mg_text::{List, Place};
use scr_tree::Statement;

/// The first statement behind one that does not fall.
#[tactic(auto, using(crate::proofs::Reaching::first_unreachable))]
pub fn find_unreachable(body: &[Statement]) -> Option<Culprit<'_>>
    ensures { Judged Unreachable (spots [] (statements body.now)) (culprit_of result) }
{
    match unreachable_all(body) {
        Ok(_) => None,
        Err(culprit) => Some(culprit),
    }
}

// Whether a statement falls, or the first culprit in it.
#[tactic(auto, using(crate::proofs::Falls::falls_alone))]
#[cycle(reached)]
fn unreachable_at(statement: &Statement) -> Result<bool, Culprit<'_>>
    ensures first { found result ≡ unreachable (front statement.now Nothing) }
    ensures falls { IfOk result (λ q. q ≡ falls (front statement.now Nothing)) }
{
    match statement {
        Statement::Message(_) => Ok(true),
        Statement::Choice { branches, .. } => unreachable_in(branches.as_slice()),
        Statement::Rec { body, .. } => unreachable_all(body.as_slice()),
        Statement::Continue { .. } => Ok(false),
        Statement::Do { .. } => Ok(false),
    }
}

#[tactic(auto, using(crate::proofs::Falls::falls_steps))]
#[cycle(reached)]
fn unreachable_all(body: &[Statement]) -> Result<bool, Culprit<'_>>
    ensures first { found result ≡ unreachable (statements body.now) }
    ensures falls { IfOk result (λ q. q ≡ falls (statements body.now)) }
{
    let mut falls = true;
    for statement in body {
        if !falls {
            return Err(Culprit {
                place: place_of(statement),
                name: "",
            });
        }
        falls = unreachable_at(statement)?;
    }
    Ok(falls)
}

#[tactic(auto, using(crate::proofs::Falls::falls_in_steps))]
#[cycle(reached)]
fn unreachable_in(branches: &[List<Statement>]) -> Result<bool, Culprit<'_>>
    ensures first { found result ≡ unreachable_in (bodies branches.now) }
    ensures falls { IfOk result (λ q. q ≡ some_falls (bodies branches.now)) }
{
    let mut some = false;
    for branch in branches {
        let falls = unreachable_all(branch.as_slice())?;
        some = either(some, falls);
    }
    Ok(some)
}

// The place of a statement.
#[tactic(auto, using(crate::proofs::Falls::falls_alone))]
pub fn place_of(statement: &Statement) -> Place
    ensures { stands (front statement.now Nothing) ≡ Some (culprit result []) }
{
    match statement {
        Statement::Message(message) => message.place,
        Statement::Choice { place, .. } => *place,
        Statement::Rec { place, .. } => *place,
        Statement::Continue { place, .. } => *place,
        Statement::Do { place, .. } => *place,
    }
}
