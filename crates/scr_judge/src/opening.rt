//! The first protocol of several begins with a message or a choice.

ghost use Rattle.std.specs.Prelude.{◌≡◌, [], ◌∷◌};
ghost use Rattle.mg_read.specs.First.{Judged};
ghost use Rattle.scr_tree.specs.View.{front, statements};
ghost use Rattle.scr_tree.specs.Tree.{Nothing};
ghost use Rattle.scr_tree.specs.Going.{StartsWithDo, first_of_several};
ghost use Rattle.scr_tree.specs.Written.{part_written, written_of};
ghost use Rattle.scr_judge.specs.inner.Gone.{acts, first_or, first_of};
ghost use Rattle.scr_judge.specs.inner.View.{culprit_of, first_seen};

use crate::culprit::Culprit;
use crate::truth::either;
use mg_text::Place;
use scr_tree::{Statement, Written, WrittenPart};

/// What comes first of messages, choices and `do`s.
#[derive(Clone, Copy)]
pub enum First {
    Neither,
    Deed,
    Goes(Place),
}

/// The name of the first protocol, where others stand behind it and it has no message and no
/// choice; or its `do` before them all.
pub fn find_starts_with_do(written: &Written) -> Option<Culprit<'_>>
    ensures { Judged StartsWithDo (first_of_several (written_of 0 written.now).first (written_of 0 written.now).others)
        (culprit_of result) }
{
    if written.others.as_slice().is_empty() {
        return None;
    }
    find_start(&written.first)
}

// The same of the first protocol of several.
fn find_start(part: &WrittenPart) -> Option<Culprit<'_>>
    ensures { Judged StartsWithDo (part_written part.now ∷ []) (culprit_of result) }
{
    let name = part.name.as_str();
    let body = part.body.as_slice();
    if !has_deed(body) {
        let place = part.place;
        return Some(Culprit { place, name });
    }
    match first_of(body) {
        First::Neither => None,
        First::Deed => None,
        First::Goes(place) => Some(Culprit { place, name }),
    }
}

// Whether statements have a message or a choice.
#[tactic(auto, using(crate::proofs::Starting::act_steps))]
#[cycle(deeds)]
fn has_deed(body: &[Statement]) -> bool
    ensures { result ≡ acts (statements body.now) }
{
    let mut found = false;
    for statement in body {
        let here = is_deed(statement);
        found = either(found, here);
    }
    found
}

#[tactic(auto, using(crate::proofs::Starting::act_alone))]
#[cycle(deeds)]
fn is_deed(statement: &Statement) -> bool
    ensures { result ≡ acts (front statement.now Nothing) }
{
    match statement {
        Statement::Message(_) => true,
        Statement::Choice { .. } => true,
        Statement::Rec { body, .. } => has_deed(body.as_slice()),
        Statement::Continue { .. } => false,
        Statement::Do { .. } => false,
    }
}

// What comes first in statements.
#[tactic(auto, using(crate::proofs::Starting::first_steps))]
#[cycle(firsts)]
fn first_of(body: &[Statement]) -> First
    ensures { first_seen result ≡ first_of (statements body.now) }
{
    for statement in body {
        let first = first_at(statement);
        match first {
            First::Neither => {}
            First::Deed => return first,
            First::Goes(_) => return first,
        }
    }
    First::Neither
}

#[tactic(auto, using(crate::proofs::Starting::first_alone))]
#[cycle(firsts)]
fn first_at(statement: &Statement) -> First
    ensures { first_seen result ≡ first_of (front statement.now Nothing) }
{
    match statement {
        Statement::Message(_) => First::Deed,
        Statement::Choice { .. } => First::Deed,
        Statement::Rec { body, .. } => first_of(body.as_slice()),
        Statement::Continue { .. } => First::Neither,
        Statement::Do { place, .. } => First::Goes(*place),
    }
}
