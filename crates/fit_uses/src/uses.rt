//! The uses of expressions and statements, appended to a list in the order of the text.

ghost use Rattle.std.specs.Prelude.{◌≡◌, ◌++◌, map, OnOk};
ghost use Rattle.jv_core.specs.View.{expr_of, exprs_of, stmt_of, stmts_of, group_of, groups_of};
ghost use Rattle.fit_uses.specs.Uses.{uses_of, uses_of_all, uses_in, uses_in_all, uses_in_groups};

use crate::usage::Use;
use jv_core::{CoreExpr, CoreExprKind, CoreGroup, CoreStmt, CoreStmtKind};
use mg_text::{List, Memory};

// Appends the uses of an expression.
#[tactic(auto, using(crate::proofs::Using::using))]
#[cycle(expressions)]
fn uses_of(uses: &mut List<Use>, expr: &CoreExpr) -> Result<(), Memory>
    ensures { OnOk result (uses.new.items ≡ uses.old.items ++ uses_of (expr_of expr.now)) }
{
    match &expr.kind {
        CoreExprKind::Int(_) | CoreExprKind::Truth(_) | CoreExprKind::Text(_) => Ok(()),
        CoreExprKind::Null | CoreExprKind::Var(_) | CoreExprKind::Constant { .. } => Ok(()),
        CoreExprKind::Neg(inner) | CoreExprKind::Not(inner) => uses_of(uses, inner),
        CoreExprKind::Binary(_, left, right)
        | CoreExprKind::Equals(left, right)
        | CoreExprKind::Concat(left, right) => uses_of_two(uses, left, right),
        CoreExprKind::Protocol { args, .. }
        | CoreExprKind::Helper { args, .. }
        | CoreExprKind::Static { args, .. } => uses_of_all(uses, args.as_slice()),
        CoreExprKind::Session { call, args } => {
            uses.push(Use::Talks(expr.place, *call))?;
            uses_of_all(uses, args.as_slice())
        }
        CoreExprKind::New(class) => uses.push(Use::Makes(expr.place, *class)),
    }
}

// Appends those of two expressions.
#[tactic(auto, using(crate::proofs::Using::using))]
#[cycle(expressions)]
fn uses_of_two(uses: &mut List<Use>, left: &CoreExpr, right: &CoreExpr) -> Result<(), Memory>
    ensures { OnOk result (uses.new.items ≡ uses.old.items ++ (uses_of (expr_of left.now) ++ uses_of (expr_of right.now))) }
{
    uses_of(uses, left)?;
    uses_of(uses, right)
}

// Appends those of arguments.
#[tactic(auto, using(crate::proofs::Using::arguments))]
#[cycle(expressions)]
fn uses_of_all(uses: &mut List<Use>, args: &[CoreExpr]) -> Result<(), Memory>
    ensures { OnOk result (uses.new.items ≡ uses.old.items ++ uses_of_all (exprs_of (map expr_of args.now))) }
{
    for arg in args {
        uses_of(uses, arg)?;
    }
    Ok(())
}

// Appends those of a statement.
#[tactic(auto, using(crate::proofs::Using::using))]
#[cycle(statements)]
pub(crate) fn uses_in(uses: &mut List<Use>, stmt: &CoreStmt) -> Result<(), Memory>
    ensures { OnOk result (uses.new.items ≡ uses.old.items ++ uses_in (stmt_of stmt.now)) }
{
    match &stmt.kind {
        CoreStmtKind::Block(body, _) => uses_in_all(uses, body.as_slice()),
        CoreStmtKind::Empty => Ok(()),
        CoreStmtKind::Local(_, value) => uses_of(uses, value),
        CoreStmtKind::Assign(_, value) => uses_of(uses, value),
        CoreStmtKind::If(condition, then, otherwise) => {
            uses_of(uses, condition)?;
            uses_in(uses, then)?;
            match otherwise {
                Some(other) => uses_in(uses, other),
                None => Ok(()),
            }
        }
        CoreStmtKind::While(_, condition, body) => {
            uses_of(uses, condition)?;
            uses_in(uses, body)
        }
        CoreStmtKind::Do(_, body, condition) => {
            uses_in(uses, body)?;
            uses_of(uses, condition)
        }
        CoreStmtKind::Switch(value, groups, _) => {
            uses_of(uses, value)?;
            uses_in_groups(uses, groups.as_slice())
        }
        CoreStmtKind::Break(_) | CoreStmtKind::Continue(_) => Ok(()),
        CoreStmtKind::Return(value) => match value {
            Some(value) => uses_of(uses, value),
            None => Ok(()),
        },
        CoreStmtKind::Print(value) => uses_of(uses, value),
        CoreStmtKind::Eval(value) => uses_of(uses, value),
    }
}

/// Appends the uses of statements, in the order of the text. The only error is want of memory.
#[tactic(auto, using(crate::proofs::Using::statements))]
#[cycle(statements)]
pub fn uses_in_all(uses: &mut List<Use>, body: &[CoreStmt]) -> Result<(), Memory>
    ensures { OnOk result (uses.new.items ≡ uses.old.items ++ uses_in_all (stmts_of (map stmt_of body.now))) }
{
    for stmt in body {
        uses_in(uses, stmt)?;
    }
    Ok(())
}

// Appends those of the groups of a switch.
#[tactic(auto, using(crate::proofs::Using::groups))]
#[cycle(statements)]
fn uses_in_groups(uses: &mut List<Use>, groups: &[CoreGroup]) -> Result<(), Memory>
    ensures { OnOk result (uses.new.items ≡ uses.old.items ++ uses_in_groups (groups_of (map group_of groups.now))) }
{
    for group in groups {
        uses_in_all(uses, group.body.as_slice())?;
    }
    Ok(())
}
