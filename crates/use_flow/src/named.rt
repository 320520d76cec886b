//! Which methods the calls of a body name.
//! They are found in the order of the text, and then stand in rising order, each once.

ghost use Rattle.std.specs.Prelude.{◌≡◌, ◌++◌, map, OnOk, IfOk};
ghost use Rattle.jv_core.specs.View.{expr_of, exprs_of, stmt_of, stmts_of, group_of, groups_of};
ghost use Rattle.use_rules.specs.Reads.{calls_in, calls_in_all, named_in, named_in_all, named_in_groups};
ghost use Rattle.use_flow.specs.inner.Reading.{rising};

use crate::rising::rising;
use jv_core::{CoreExpr, CoreExprKind, CoreGroup, CoreStmt, CoreStmtKind};
use mg_text::Memory;
use std::alloc::Global;

// Appends the methods that the calls in an expression name.
#[tactic(auto, using(crate::proofs::Naming::naming))]
#[cycle(calls)]
fn calls_in(named: &mut Vec<u32>, expr: &CoreExpr) -> Result<(), Memory>
    ensures { OnOk result (named.new.items ≡ named.old.items ++ calls_in (expr_of expr.now)) }
{
    match &expr.kind {
        CoreExprKind::Int(_) | CoreExprKind::Truth(_) | CoreExprKind::Text(_) => Ok(()),
        CoreExprKind::Null | CoreExprKind::Var(_) | CoreExprKind::New(_) => Ok(()),
        CoreExprKind::Constant { .. } => Ok(()),
        CoreExprKind::Neg(inner) | CoreExprKind::Not(inner) => calls_in(named, inner),
        CoreExprKind::Binary(_, left, right)
        | CoreExprKind::Equals(left, right)
        | CoreExprKind::Concat(left, right) => calls_in_two(named, left, right),
        CoreExprKind::Protocol { method, args, .. }
        | CoreExprKind::Helper { method, args }
        | CoreExprKind::Static { method, args } => {
            named.push(*method)?;
            calls_in_all(named, args.as_slice())
        }
        CoreExprKind::Session { args, .. } => calls_in_all(named, args.as_slice()),
    }
}

// Appends those of two expressions.
#[tactic(auto, using(crate::proofs::Naming::naming))]
#[cycle(calls)]
fn calls_in_two(named: &mut Vec<u32>, left: &CoreExpr, right: &CoreExpr) -> Result<(), Memory>
    ensures { OnOk result (named.new.items ≡ named.old.items ++ (calls_in (expr_of left.now) ++ calls_in (expr_of right.now))) }
{
    calls_in(named, left)?;
    calls_in(named, right)
}

// Appends those of arguments.
#[tactic(auto, using(crate::proofs::Naming::arguments))]
#[cycle(calls)]
fn calls_in_all(named: &mut Vec<u32>, args: &[CoreExpr]) -> Result<(), Memory>
    ensures { OnOk result (named.new.items ≡ named.old.items ++ calls_in_all (exprs_of (map expr_of args.now))) }
{
    for arg in args {
        calls_in(named, arg)?;
    }
    Ok(())
}

// Appends the methods that the calls in a statement name.
#[tactic(auto, using(crate::proofs::Naming::naming))]
#[cycle(statements)]
fn named_in(named: &mut Vec<u32>, stmt: &CoreStmt) -> Result<(), Memory>
    ensures { OnOk result (named.new.items ≡ named.old.items ++ named_in (stmt_of stmt.now)) }
{
    match &stmt.kind {
        CoreStmtKind::Block(body, _) => named_in_all(named, body.as_slice()),
        CoreStmtKind::Empty => Ok(()),
        CoreStmtKind::Local(_, value) => calls_in(named, value),
        CoreStmtKind::Assign(_, value) => calls_in(named, value),
        CoreStmtKind::If(condition, then, otherwise) => {
            calls_in(named, condition)?;
            named_in(named, then)?;
            match otherwise {
                Some(other) => named_in(named, other),
                None => Ok(()),
            }
        }
        CoreStmtKind::While(_, condition, body) => {
            calls_in(named, condition)?;
            named_in(named, body)
        }
        CoreStmtKind::Do(_, body, condition) => {
            named_in(named, body)?;
            calls_in(named, condition)
        }
        CoreStmtKind::Switch(value, groups, _) => {
            calls_in(named, value)?;
            named_in_groups(named, groups.as_slice())
        }
        CoreStmtKind::Break(_) | CoreStmtKind::Continue(_) => Ok(()),
        CoreStmtKind::Return(value) => match value {
            Some(value) => calls_in(named, value),
            None => Ok(()),
        },
        CoreStmtKind::Print(value) => calls_in(named, value),
        CoreStmtKind::Eval(value) => calls_in(named, value),
    }
}

// Appends those of statements.
#[tactic(auto, using(crate::proofs::Naming::statements))]
#[cycle(statements)]
fn named_in_all(named: &mut Vec<u32>, body: &[CoreStmt]) -> Result<(), Memory>
    ensures { OnOk result (named.new.items ≡ named.old.items ++ named_in_all (stmts_of (map stmt_of body.now))) }
{
    for stmt in body {
        named_in(named, stmt)?;
    }
    Ok(())
}

// Appends those of the groups of a switch.
#[tactic(auto, using(crate::proofs::Naming::groups))]
#[cycle(statements)]
fn named_in_groups(named: &mut Vec<u32>, groups: &[CoreGroup]) -> Result<(), Memory>
    ensures { OnOk result (named.new.items ≡ named.old.items ++ named_in_groups (groups_of (map group_of groups.now))) }
{
    for group in groups {
        named_in_all(named, group.body.as_slice())?;
    }
    Ok(())
}

// The methods that the calls of a body name, in rising order, each once.
pub(crate) fn named_by(alloc: Global, body: &[CoreStmt]) -> Result<Vec<u32>, Memory>
    ensures { IfOk result (λ v. v.items ≡ rising (named_in_all (stmts_of (map stmt_of body.now)))) }
{
    let mut named = Vec::new(alloc);
    named_in_all(&mut named, body)?;
    rising(alloc, named.as_slice())
}
