//! A choice or a `rec` that holds a `do` is the last statement of its list.

ghost use Rattle.std.specs.Prelude.{◌≡◌, ◌||◌, map};
ghost use Rattle.mg_read.specs.First.{Judged};
ghost use Rattle.scr_tree.specs.View.{front, statements, bodies};
ghost use Rattle.scr_tree.specs.Tree.{Nothing};
ghost use Rattle.scr_tree.specs.Going.{NotLast, all_held};
ghost use Rattle.scr_tree.specs.Written.{parts_in, body_of, written_of};
ghost use Rattle.scr_judge.specs.inner.Listed.{first_among};
ghost use Rattle.scr_judge.specs.inner.Gone.{not_last, not_last_at, not_last_in, not_last_in_part};
ghost use Rattle.scr_judge.specs.inner.View.{culprit_of};

use crate::culprit::Culprit;
use crate::truth::either;
use mg_text::List;
use scr_tree::{Statement, Written, WrittenPart};

/// The first `do` of a file behind whose choice or `rec` a statement stands.
pub fn find_not_last_in(written: &Written) -> Option<Culprit<'_>>
    ensures { Judged NotLast (all_held (map body_of (parts_in (written_of 0 written.now)))) (culprit_of result) }
{
    match last_all(false, written.first.body.as_slice()) {
        Some(culprit) => Some(culprit),
        None => find_not_last_among(written.others.as_slice()),
    }
}

// The same of protocols behind the first.
#[tactic(auto, using(crate::proofs::Tables::steps))]
fn find_not_last_among(parts: &[WrittenPart]) -> Option<Culprit<'_>>
    ensures { culprit_of result ≡ first_among not_last_in_part parts.now }
{
    for part in parts {
        if let Some(culprit) = last_all(false, part.body.as_slice()) {
            return Some(culprit);
        }
    }
    None
}

#[tactic(auto, using(crate::proofs::Lasting::all_steps))]
#[cycle(last)]
fn last_all(followed: bool, body: &[Statement]) -> Option<Culprit<'_>>
    ensures { culprit_of result ≡ not_last followed (statements body.now) }
{
    let count = body.len();
    for (i, statement) in body.iter().enumerate() {
        let more = i + 1 < count;
        if let Some(culprit) = last_at(followed, more, statement) {
            return Some(culprit);
        }
    }
    None
}

#[tactic(auto, using(crate::proofs::Lasting::alone))]
#[cycle(last)]
fn last_at(followed: bool, more: bool, statement: &Statement) -> Option<Culprit<'_>>
    ensures { culprit_of result ≡ not_last_at followed more (front statement.now Nothing) }
{
    match statement {
        Statement::Message(_) => None,
        Statement::Choice { branches, .. } => last_in(either(followed, more), branches.as_slice()),
        Statement::Rec { body, .. } => last_all(either(followed, more), body.as_slice()),
        Statement::Continue { .. } => None,
        Statement::Do { place, name } => {
            if followed {
                return Some(Culprit {
                    place: *place,
                    name: name.as_str(),
                });
            }
            None
        }
    }
}

#[tactic(auto, using(crate::proofs::Lasting::in_steps))]
#[cycle(last)]
fn last_in(followed: bool, branches: &[List<Statement>]) -> Option<Culprit<'_>>
    ensures { culprit_of result ≡ not_last_in followed (bodies branches.now) }
{
    for branch in branches {
        if let Some(culprit) = last_all(followed, branch.as_slice()) {
            return Some(culprit);
        }
    }
    None
}
