//! A rec begins again only behind a message.

ghost use Rattle.std.specs.Prelude.{◌≡◌, [], IfOk};
ghost use Rattle.mg_read.specs.First.{Judged};
ghost use Rattle.scr_tree.specs.View.{front, statements, branches_of};
ghost use Rattle.scr_tree.specs.Tree.{Nothing};
ghost use Rattle.scr_tree.specs.Spots.{spots};
ghost use Rattle.scr_tree.specs.Control.{passes, some_passes};
ghost use Rattle.scr_tree.specs.Conditions.{Unguarded};
ghost use Rattle.scr_judge.specs.inner.Finding.{kept, unguarded, unguarded_in};
ghost use Rattle.scr_judge.specs.inner.Names.{is_among};
ghost use Rattle.scr_judge.specs.inner.Round.{is_goal, kept_goal};
ghost use Rattle.scr_judge.specs.inner.View.{names_of, goal_of, found, culprit_of};
ghost use Rattle.scr_tree.specs.View.{bodies};

use crate::culprit::Culprit;
use crate::truth::{both, either};
use mg_text::List;
use scr_tree::Statement;

/// The names of the recs from whose openings a path without a message leads to a place, innermost first.
#[derive(Clone, Copy)]
pub enum Names<'a> {
    Outside,
    Inside(&'a str, &'a Names<'a>),
}

/// The first `continue` to which control can come from the opening of its rec with no message.
#[tactic(auto, using(crate::proofs::Quiet::first_unguarded))]
pub fn find_unguarded(body: &[Statement]) -> Option<Culprit<'_>>
    ensures { Judged Unguarded (spots [] (statements body.now)) (culprit_of result) }
{
    match unguarded_all(&Names::Outside, None, body) {
        Ok(_) => None,
        Err(culprit) => Some(culprit),
    }
}

/// The same, or the first `do` of this name, if one is given, to which control can come with no
/// message.
pub fn find_unguarded_or<'a>(goal: Option<&str>, body: &'a [Statement]) -> Option<Culprit<'a>>
    ensures { culprit_of result ≡ unguarded [] (goal_of goal.entry) (statements body.now) }
{
    match unguarded_all(&Names::Outside, goal, body) {
        Ok(_) => None,
        Err(culprit) => Some(culprit),
    }
}

// Whether the end of a statement can be reached with no message, or the first culprit in it.
#[tactic(auto, using(crate::proofs::Walks::fronts))]
#[cycle(guards)]
fn unguarded_at<'a>(
    names: &Names<'_>,
    goal: Option<&str>,
    statement: &'a Statement,
) -> Result<bool, Culprit<'a>>
    ensures first { found result ≡ unguarded (names_of names.now) (goal_of goal.entry) (front statement.now Nothing) }
    ensures passes { IfOk result (λ q. q ≡ passes (front statement.now Nothing)) }
{
    match statement {
        Statement::Message(_) => Ok(false),
        Statement::Choice { branches, .. } => unguarded_in(names, goal, branches.as_slice()),
        Statement::Rec { name, body, .. } => {
            let inside = Names::Inside(name.as_str(), &*names);
            unguarded_all(&inside, goal, body.as_slice())
        }
        Statement::Continue { place, name } => {
            let name = name.as_str();
            if is_among(name, names) {
                return Err(Culprit {
                    place: *place,
                    name,
                });
            }
            Ok(false)
        }
        Statement::Do { place, name } => {
            let name = name.as_str();
            if is_goal(goal, name) {
                return Err(Culprit {
                    place: *place,
                    name,
                });
            }
            Ok(false)
        }
    }
}

// Behind statements, of which it is known whether they can be passed with no message.
#[tactic(auto, using(crate::proofs::Walks::fronts))]
#[cycle(guards)]
fn unguarded_behind<'a>(
    names: &Names<'_>,
    goal: Option<&str>,
    quiet: bool,
    statement: &'a Statement,
) -> Result<bool, Culprit<'a>>
    ensures first { found result ≡ unguarded (kept quiet (names_of names.now)) (kept_goal quiet (goal_of goal.entry))
        (front statement.now Nothing) }
    ensures passes { IfOk result (λ q. q ≡ passes (front statement.now Nothing)) }
{
    if quiet {
        unguarded_at(names, goal, statement)
    } else {
        unguarded_at(&Names::Outside, None, statement)
    }
}

#[tactic(auto, using(crate::proofs::Walks::all_steps))]
#[cycle(guards)]
fn unguarded_all<'a>(
    names: &Names<'_>,
    goal: Option<&str>,
    body: &'a [Statement],
) -> Result<bool, Culprit<'a>>
    ensures first { found result ≡ unguarded (names_of names.now) (goal_of goal.entry) (statements body.now) }
    ensures passes { IfOk result (λ q. q ≡ passes (statements body.now)) }
{
    let mut quiet = true;
    for statement in body {
        let passes = unguarded_behind(names, goal, quiet, statement)?;
        quiet = both(quiet, passes);
    }
    Ok(quiet)
}

#[tactic(auto, using(crate::proofs::Walks::in_steps))]
#[cycle(guards)]
fn unguarded_in<'a>(
    names: &Names<'_>,
    goal: Option<&str>,
    branches: &'a [List<Statement>],
) -> Result<bool, Culprit<'a>>
    ensures first { found result ≡ unguarded_in (names_of names.now) (goal_of goal.entry) (bodies branches.now) }
    ensures passes { IfOk result (λ q. q ≡ some_passes (bodies branches.now)) }
{
    let mut some = false;
    for branch in branches {
        let passes = unguarded_all(names, goal, branch.as_slice())?;
        some = either(some, passes);
    }
    Ok(some)
}

// Whether this is the name that is sought.
fn is_goal(goal: Option<&str>, name: &str) -> bool
    ensures { result ≡ is_goal (goal_of goal.entry) name.now }
{
    match goal {
        Some(goal) => goal == name,
        None => false,
    }
}

// Whether a name is one of these.
pub fn is_among(name: &str, names: &Names<'_>) -> bool
    ensures { result ≡ is_among name.now (names_of names.now) }
{
    match names {
        Names::Outside => false,
        Names::Inside(other, around) => name == *other || is_among(name, around),
    }
}
