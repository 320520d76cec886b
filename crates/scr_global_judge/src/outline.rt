//! The outline of a global protocol, over which conditions of local protocols are judged.

ghost use Rattle.std.specs.Prelude.{◌≡◌, [], ◌∷◌, ◌++◌, IfOk, OnOk};
ghost use Rattle.scr_tree.specs.Tree as local;
ghost use Rattle.scr_tree.specs.View.{front as local_front, statements as local_statements, bodies as local_bodies};
ghost use Rattle.scr_global.specs.Tree.{Nothing};
ghost use Rattle.scr_global_tree.specs.View.{front, statements, bodies};
ghost use Rattle.scr_global_judge.specs.inner.Outline.{way_of, outlined, outlined_each};
ghost use Rattle.scr_judge.specs.inner.View.{begins_of};

use mg_text::{List, Memory, Text};
use scr_global_tree::GStatement;
use scr_tree::{Direction, Message, Statement};
use std::alloc::Global;

/// The outline of statements. The first one begins a branch of a choice at the role, if one is
/// given.
#[tactic(auto, using(crate::proofs::OutlineSteps::all_steps))]
#[cycle(outline)]
pub(crate) fn outline_all(
    alloc: Global,
    begins: Option<&Text>,
    body: &[GStatement],
) -> Result<List<Statement>, Memory>
    ensures { IfOk result (λ l. local_statements l.items ≡ outlined (begins_of begins.entry) (statements body.now)) }
{
    let mut begins = begins;
    let mut outline = List::new(alloc);
    for statement in body {
        let next = outline_at(alloc, begins, statement)?;
        outline.push(next)?;
        begins = None;
    }
    Ok(outline)
}

#[tactic(auto, using(crate::proofs::OutlineSteps::alone))]
#[cycle(outline)]
fn outline_at(
    alloc: Global,
    begins: Option<&Text>,
    statement: &GStatement,
) -> Result<Statement, Memory>
    ensures { IfOk result (λ s. local_front s local.Nothing ≡ outlined (begins_of begins.entry) (front statement.now Nothing)) }
{
    match statement {
        GStatement::Message {
            place,
            sender,
            receiver,
            label,
            payload,
        } => Ok(Statement::Message(Message {
            place: *place,
            direction: way_of(begins, sender),
            peer: receiver.copy()?,
            label: label.copy()?,
            payload: *payload,
        })),
        GStatement::Choice {
            place,
            at,
            branches,
        } => {
            let branches = outline_in(alloc, at, branches.as_slice())?;
            let at = Text::of(alloc, "")?;
            Ok(Statement::Choice {
                place: *place,
                at,
                branches,
            })
        }
        GStatement::Rec { place, name, body } => {
            let body = outline_all(alloc, None, body.as_slice())?;
            let name = name.copy()?;
            Ok(Statement::Rec {
                place: *place,
                name,
                body,
            })
        }
        GStatement::Continue { place, name } => {
            let name = name.copy()?;
            Ok(Statement::Continue {
                place: *place,
                name,
            })
        }
    }
}

#[tactic(auto, using(crate::proofs::OutlineSteps::in_steps))]
#[cycle(outline)]
fn outline_in(
    alloc: Global,
    at: &Text,
    branches: &[List<GStatement>],
) -> Result<List<List<Statement>>, Memory>
    ensures { IfOk result (λ l. local_bodies l.items ≡ outlined_each at.now (bodies branches.now)) }
{
    let mut outline = List::new(alloc);
    for branch in branches {
        let next = outline_all(alloc, Some(at), branch.as_slice())?;
        outline.push(next)?;
    }
    Ok(outline)
}

// A message is taken, but where it begins a branch of a choice of another role than its sender.
fn way_of(begins: Option<&Text>, sender: &Text) -> Direction
    ensures { result ≡ way_of (begins_of begins.entry) sender.now }
{
    match begins {
        None => Direction::From,
        Some(at) => {
            if *sender == *at {
                Direction::From
            } else {
                Direction::To
            }
        }
    }
}
