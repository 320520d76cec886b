//! How many states there are.

ghost use Rattle.std.specs.Prelude.{◌≡◌, [], ◌∷◌, false};
ghost use Rattle.mg_read.specs.First.{Judged};
ghost use Rattle.scr_tree.specs.View.{front, statements};
ghost use Rattle.scr_tree.specs.Tree.{Nothing};
ghost use Rattle.scr_tree.specs.States.{TooManyStates, all_states};
ghost use Rattle.scr_tree.specs.Written.{parts_in, me_in, body_of, written_of};
ghost use Rattle.scr_judge.specs.inner.Counting.{counted, counted_in, counted_parts, up};
ghost use Rattle.scr_judge.specs.inner.View.{culprit_of};
ghost use Rattle.scr_tree.specs.View.{bodies};

use crate::culprit::Culprit;
use mg_text::{List, Place, Text};
use scr_tree::{Statement, Written, WrittenPart};

const MAX_STATES: u32 = 1000;

/// The file, where it has too many states.
pub fn find_too_many_states(file: u32, written: &Written) -> Option<Culprit<'_>>
    ensures { Judged (TooManyStates file) (all_states me_in body_of (parts_in (written_of file written.now)) ∷ []) (culprit_of result) }
{
    let count = count_file(written);
    if count > MAX_STATES {
        return Some(Culprit {
            place: Place::start(file),
            name: "",
        });
    }
    None
}

// Counts up to one state too many in all protocols.
fn count_file(written: &Written) -> u32
    ensures { result ≡ counted_parts (counted written.now.first.me.name false 0 (statements written.now.first.body.items))
        written.now.others.items }
{
    let first = &written.first;
    let count = count_all(&first.me.name, false, 0, first.body.as_slice());
    count_parts(count, written.others.as_slice())
}

// Counts up to one state too many in protocols.
#[tactic(auto, using(crate::proofs::CountSteps::part_steps))]
fn count_parts(count: u32, parts: &[WrittenPart]) -> u32
    ensures { result ≡ counted_parts count parts.now }
{
    let mut count = count;
    for part in parts {
        count = count_all(&part.me.name, false, count, part.body.as_slice());
    }
    count
}

// Counts up to one state too many.
#[tactic(auto, using(crate::proofs::CountSteps::all_steps))]
#[cycle(states)]
fn count_all(me: &Text, first: bool, count: u32, body: &[Statement]) -> u32
    ensures { result ≡ counted me.now first count (statements body.now) }
{
    let mut count = count;
    let mut first = first;
    for statement in body {
        count = count_at(me, first, count, statement);
        first = false;
    }
    count
}

#[tactic(auto, using(crate::proofs::CountSteps::alone))]
#[cycle(states)]
fn count_at(me: &Text, first: bool, count: u32, statement: &Statement) -> u32
    ensures { result ≡ counted me.now first count (front statement.now Nothing) }
{
    match statement {
        Statement::Message(_) => { if first { count } else { one_more(count) } }
        Statement::Choice { at, branches, .. } => {
            let at_self = *at == *me;
            count_in(me, at_self, one_more(count), branches.as_slice())
        }
        Statement::Rec { body, .. } => count_all(me, false, count, body.as_slice()),
        Statement::Continue { .. } => count,
        Statement::Do { .. } => count,
    }
}

#[tactic(auto, using(crate::proofs::CountSteps::in_steps))]
#[cycle(states)]
fn count_in(me: &Text, at_self: bool, count: u32, branches: &[List<Statement>]) -> u32
    ensures { result ≡ counted_in me.now at_self count (bodies branches.now) }
{
    let mut count = count;
    for branch in branches {
        count = count_all(me, at_self, count, branch.as_slice());
    }
    count
}

fn one_more(count: u32) -> u32
    ensures { result ≡ up count }
{
    if count < MAX_STATES + 1 {
        count + 1
    } else {
        count
    }
}
