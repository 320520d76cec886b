//! The `do`s of a protocol to which control can come with no message from its opening.

ghost use Rattle.std.specs.Prelude.{◌≡◌, ◌++◌, IfOk, OnOk};
ghost use Rattle.scr_tree.specs.View.{front, statements, bodies};
ghost use Rattle.scr_tree.specs.Tree.{Nothing};
ghost use Rattle.scr_tree.specs.Control.{passes, some_passes};
ghost use Rattle.scr_judge.specs.inner.Round.{gone, gone_in};
ghost use Rattle.scr_judge.specs.inner.View.{told_names};

use crate::truth::{both, either};
use mg_text::{List, Memory};
use scr_tree::Statement;

/// Appends their names, in the order of the text. The answer is whether the end of the statements
/// can be reached with no message. `at_once` says that control can come to the statements so.
#[tactic(auto, using(crate::proofs::Leaving::all_steps))]
#[cycle(gone)]
pub fn gone_all<'a>(
    at_once: bool,
    out: &mut Vec<&'a str>,
    body: &'a [Statement],
) -> Result<bool, Memory>
    ensures passes { IfOk result (λ q. q ≡ passes (statements body.now)) }
    ensures names { OnOk result (told_names out.new.items ≡ told_names out.old.items ++ gone at_once (statements body.now)) }
{
    let mut quiet = true;
    for statement in body {
        let here = both(quiet, at_once);
        let passes = gone_at(here, out, statement)?;
        quiet = both(quiet, passes);
    }
    Ok(quiet)
}

#[tactic(auto, using(crate::proofs::Leaving::alone))]
#[cycle(gone)]
fn gone_at<'a>(
    at_once: bool,
    out: &mut Vec<&'a str>,
    statement: &'a Statement,
) -> Result<bool, Memory>
    ensures passes { IfOk result (λ q. q ≡ passes (front statement.now Nothing)) }
    ensures names { OnOk result (told_names out.new.items ≡ told_names out.old.items ++ gone at_once (front statement.now Nothing)) }
{
    match statement {
        Statement::Message(_) => Ok(false),
        Statement::Choice { branches, .. } => gone_in(at_once, out, branches.as_slice()),
        Statement::Rec { body, .. } => gone_all(at_once, out, body.as_slice()),
        Statement::Continue { .. } => Ok(false),
        Statement::Do { name, .. } => {
            if at_once {
                out.push(name.as_str())?;
            }
            Ok(false)
        }
    }
}

#[tactic(auto, using(crate::proofs::Leaving::in_steps))]
#[cycle(gone)]
fn gone_in<'a>(
    at_once: bool,
    out: &mut Vec<&'a str>,
    branches: &'a [List<Statement>],
) -> Result<bool, Memory>
    ensures passes { IfOk result (λ q. q ≡ some_passes (bodies branches.now)) }
    ensures names { OnOk result (told_names out.new.items ≡ told_names out.old.items ++ gone_in at_once (bodies branches.now)) }
{
    let mut some = false;
    for branch in branches {
        let passes = gone_all(at_once, out, branch.as_slice())?;
        some = either(some, passes);
    }
    Ok(some)
}
