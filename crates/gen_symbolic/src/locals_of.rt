//! How many locals a method has.

ghost use Rattle.std.specs.Prelude.{◌≡◌, IfOk, map, suc};
ghost use Rattle.jv_core.specs.View.{stmt_of, stmts_of, group_of, groups_of};
ghost use Rattle.gen_rules.specs.Frames.{max_locals, locals_of, locals_of_all, locals_of_groups};
ghost use Rattle.gen_expressions.specs.Held.{method_in};
ghost use Rattle.gen_symbolic.specs.inner.Held.{declared, taken_with};
ghost use Rattle.gen_symbolic.specs.inner.Drafting.{groups};

use gen_expressions::{Coder, local_at};
use jv_core::{CoreGroup, CoreStmt, CoreStmtKind};
use mg_text::Memory;

// One more local.
fn one_more(taken: u32) -> Result<u32, Memory>
    ensures { IfOk result (λ n. n ≡ suc taken) }
{
    let Some(more) = taken.checked_add(1) else {
        return Err(Memory);
    };
    Ok(more)
}

/// The slot that a statement declares, if it declares one.
#[tactic(auto, using(crate::proofs::Loops::declares))]
pub(crate) fn declared(stmt: &CoreStmt) -> Option<u32>
    ensures { result ≡ declared (stmt_of stmt.now) }
{
    match stmt.kind {
        CoreStmtKind::Local(slot, _) => Some(slot),
        CoreStmtKind::Block(_, _) | CoreStmtKind::Empty | CoreStmtKind::Assign(_, _) => None,
        CoreStmtKind::If(_, _, _) | CoreStmtKind::While(_, _, _) => None,
        CoreStmtKind::Do(_, _, _) | CoreStmtKind::Switch(_, _, _) => None,
        CoreStmtKind::Break(_) | CoreStmtKind::Continue(_) | CoreStmtKind::Return(_) => None,
        CoreStmtKind::Print(_) | CoreStmtKind::Eval(_) => None,
    }
}

// The locals that are taken behind a statement that declares this slot, if any, where so many are
// taken at its beginning.
fn taken_behind(taken: u32, declared: Option<u32>) -> Result<u32, Memory>
    ensures { IfOk result (λ n. n ≡ taken_with taken declared) }
{
    match declared {
        Some(_) => one_more(taken),
        None => Ok(taken),
    }
}

// How many locals there are at most, where so many are taken at the beginning.
#[tactic(auto, using(gen_expressions::proofs::Seen::seen))]
#[cycle(locals)]
fn locals_of(taken: u32, stmt: &CoreStmt) -> Result<u32, Memory>
    ensures { IfOk result (λ n. n ≡ locals_of taken (stmt_of stmt.now)) }
{
    match stmt.kind {
        CoreStmtKind::Block(ref body, _) => locals_of_all(taken, body.as_slice()),
        CoreStmtKind::Local(_, _) => one_more(taken),
        CoreStmtKind::If(_, ref inner, ref otherwise) => match otherwise {
            None => locals_of(taken, inner),
            Some(otherwise) => {
                let first = locals_of(taken, inner)?;
                let second = locals_of(taken, otherwise)?;
                Ok(first.max(second))
            }
        },
        CoreStmtKind::While(_, _, ref inner) => locals_of(taken, inner),
        CoreStmtKind::Do(_, ref inner, _) => locals_of(taken, inner),
        CoreStmtKind::Switch(_, ref groups, _) => locals_of_groups(taken, groups.as_slice()),
        CoreStmtKind::Empty | CoreStmtKind::Assign(_, _) | CoreStmtKind::Return(_) => Ok(taken),
        CoreStmtKind::Break(_) | CoreStmtKind::Continue(_) => Ok(taken),
        CoreStmtKind::Print(_) | CoreStmtKind::Eval(_) => Ok(taken),
    }
}

#[tactic(auto, using(crate::proofs::Framing::taken))]
#[cycle(locals)]
fn locals_of_all(taken: u32, stmts: &[CoreStmt]) -> Result<u32, Memory>
    ensures { IfOk result (λ n. n ≡ locals_of_all taken (stmts_of (map stmt_of stmts.now))) }
{
    let mut most = taken;
    let mut taken = taken;
    for stmt in stmts {
        let next = locals_of(taken, stmt)?;
        most = next.max(most);
        taken = taken_behind(taken, declared(stmt))?;
    }
    Ok(most)
}

#[tactic(auto, using(crate::proofs::Framing::taken))]
#[cycle(locals)]
fn locals_of_groups(taken: u32, groups: &[CoreGroup]) -> Result<u32, Memory>
    ensures { IfOk result (λ n. n ≡ locals_of_groups taken (groups_of (map group_of groups.now))) }
{
    let mut most = taken;
    for group in groups {
        let next = locals_of_all(taken, group.body.as_slice())?;
        most = next.max(most);
    }
    Ok(most)
}

/// How many locals the method has.
#[tactic(auto, using(crate::proofs::Framing::frame))]
pub(crate) fn max_locals(coder: &Coder<'_>) -> Result<u32, Memory>
    ensures { IfOk result (λ n. n ≡ max_locals (method_in coder.now)) }
{
    let taken = local_at(coder.method.kind, coder.method.params as usize)?;
    locals_of_all(taken, coder.method.body.as_slice())
}
