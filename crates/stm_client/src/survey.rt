//! What the protocols of a file have, before a client of them is made.

ghost use Rattle.std.specs.Prelude.{◌≡◌, [], ◌∷◌, IfOk, map};
ghost use Rattle.scr_tree.specs.Local.{tree_of};
ghost use Rattle.scr_tree.specs.Tree.{other, Nothing};
ghost use Rattle.scr_tree.specs.View.{front, statements, bodies, part_of};
ghost use Rattle.stm_client.specs.inner.Surveyed.{survey_of, survey, survey_in, survey_all};

use crate::points::{Survey, deeper};
use mg_text::{List, Memory, Text};
use scr_tree::{Local, Part, Statement};

/// What the protocols of a file have. `Memory` where it has more than can be numbered.
pub fn survey_of(local: &Local) -> Result<Survey, Memory>
    ensures { IfOk result (λ s. s ≡ survey_of (tree_of local.now)) }
{
    let nothing = Survey {
        own: 0,
        levels: 0,
        goes_on: false,
    };
    let me = local.me();
    let first = survey_body(me, 0, nothing, local.body().as_slice())?;
    survey_parts(me, first, local.others().as_slice())
}

// With what protocols have.
#[tactic(auto, using(crate::proofs::Counting::part_steps))]
fn survey_parts(me: &Text, so_far: Survey, parts: &[Part]) -> Result<Survey, Memory>
    ensures { IfOk result (λ s. s ≡ survey_all me.now so_far (map other (map part_of parts.now))) }
{
    let mut so_far = so_far;
    for part in parts {
        so_far = survey_body(me, 0, so_far, part.body.as_slice())?;
    }
    Ok(so_far)
}

// With what statements have, which stand so deep.
#[tactic(auto, using(crate::proofs::Counting::survey_steps))]
#[cycle(survey)]
fn survey_body(me: &Text, level: u32, so_far: Survey, body: &[Statement]) -> Result<Survey, Memory>
    ensures { IfOk result (λ s. s ≡ survey me.now level so_far (statements body.now)) }
{
    let mut so_far = so_far;
    for statement in body {
        so_far = survey_at(me, level, so_far, statement)?;
    }
    Ok(so_far)
}

#[tactic(auto, using(crate::proofs::Counting::surveyed))]
#[cycle(survey)]
fn survey_at(me: &Text, level: u32, so_far: Survey, statement: &Statement) -> Result<Survey, Memory>
    ensures { IfOk result (λ s. s ≡ survey me.now level so_far (front statement.now Nothing)) }
{
    match statement {
        Statement::Message(_) => Ok(so_far),
        Statement::Choice { at, branches, .. } => {
            let is_own = *at == *me;
            let counted = so_far.counted(is_own)?;
            survey_in(me, is_own, level, counted, branches.as_slice())
        }
        Statement::Rec { body, .. } => survey_body(me, level, so_far, body.as_slice()),
        Statement::Continue { .. } => Ok(so_far),
        Statement::Do { .. } => Ok(so_far.going_on()),
    }
}

#[tactic(auto, using(crate::proofs::Counting::survey_in_steps))]
#[cycle(survey)]
fn survey_in(
    me: &Text,
    is_own: bool,
    level: u32,
    so_far: Survey,
    branches: &[List<Statement>],
) -> Result<Survey, Memory>
    ensures { IfOk result (λ s. s ≡ survey_in me.now is_own level so_far (bodies branches.now)) }
{
    let mut so_far = so_far;
    let mut level = level;
    for branch in branches {
        level = deeper(is_own, level)?;
        so_far = survey_body(me, level, so_far.seen(level), branch.as_slice())?;
    }
    Ok(so_far)
}
