//! Statement by statement, and branch by branch.

ghost use Rattle.std.specs.Prelude.{◌≡◌};
ghost use Rattle.scr_tree.specs.Meaning.{message_of};
ghost use Rattle.scr_tree.specs.Tree.{Nothing};
ghost use Rattle.scr_tree.specs.View.{front, statements, bodies};
ghost use Rattle.scr_global.specs.Projecting.{same_message};
ghost use Rattle.scr_same.specs.inner.Alike.{is_alike, are_alike};

use mg_text::List;
use scr_tree::{Message, Statement};

/// Whether two lists of statements are the same, places aside.
#[tactic(auto, using(crate::proofs::Sameness::all_steps))]
#[cycle(same)]
pub(crate) fn same_all(some: &[Statement], others: &[Statement]) -> bool
    ensures { result ≡ is_alike (statements some.now) (statements others.now) }
{
    let mut rest = others;
    for statement in some {
        let Some((other, after)) = rest.split_first() else {
            return false;
        };
        if !same_at(statement, other) {
            return false;
        }
        rest = after;
    }
    rest.is_empty()
}

#[cycle(same)]
fn same_at(some: &Statement, other: &Statement) -> bool
    ensures { result ≡ is_alike (front some.now Nothing) (front other.now Nothing) }
{
    match some {
        Statement::Message(message) => match other {
            Statement::Message(another) => is_same_message(message, another),
            Statement::Choice { .. } => false,
            Statement::Rec { .. } => false,
            Statement::Continue { .. } => false,
            Statement::Do { .. } => false,
        },
        Statement::Choice { at, branches, .. } => match other {
            Statement::Choice {
                at: another,
                branches: others,
                ..
            } => *at == *another && same_in(branches.as_slice(), others.as_slice()),
            Statement::Message(_) => false,
            Statement::Rec { .. } => false,
            Statement::Continue { .. } => false,
            Statement::Do { .. } => false,
        },
        Statement::Rec { name, body, .. } => match other {
            Statement::Rec {
                name: another,
                body: others,
                ..
            } => *name == *another && same_all(body.as_slice(), others.as_slice()),
            Statement::Message(_) => false,
            Statement::Choice { .. } => false,
            Statement::Continue { .. } => false,
            Statement::Do { .. } => false,
        },
        Statement::Continue { name, .. } => match other {
            Statement::Continue { name: another, .. } => *name == *another,
            Statement::Message(_) => false,
            Statement::Choice { .. } => false,
            Statement::Rec { .. } => false,
            Statement::Do { .. } => false,
        },
        Statement::Do { name, .. } => match other {
            Statement::Do { name: another, .. } => *name == *another,
            Statement::Message(_) => false,
            Statement::Choice { .. } => false,
            Statement::Rec { .. } => false,
            Statement::Continue { .. } => false,
        },
    }
}

#[tactic(auto, using(crate::proofs::Sameness::in_steps))]
#[cycle(same)]
fn same_in(some: &[List<Statement>], others: &[List<Statement>]) -> bool
    ensures { result ≡ are_alike (bodies some.now) (bodies others.now) }
{
    let mut rest = others;
    for branch in some {
        let Some((other, after)) = rest.split_first() else {
            return false;
        };
        if !same_all(branch.as_slice(), other.as_slice()) {
            return false;
        }
        rest = after;
    }
    rest.is_empty()
}

// Whether two messages differ in their places at most.
fn is_same_message(some: &Message, other: &Message) -> bool
    ensures { result ≡ same_message (message_of some.now) (message_of other.now) }
{
    some.direction == other.direction
        && some.peer == other.peer
        && some.label == other.label
        && some.payload == other.payload
}
