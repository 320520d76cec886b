//! The making of an object of a class in the body of a method, and the other uses of the body.

ghost use Rattle.std.specs.Prelude.{◌≡◌, ◌++◌, OnOk, map, unwrap_or};
ghost use Rattle.std.specs.Option.{is_some};
ghost use Rattle.jv_core.specs.View.{expr_of, stmt_of, stmts_of};
ghost use Rattle.fit_uses.specs.Uses.{is_new_of, uses_in_all, uses_beside_making};
ghost use Rattle.fit_uses.specs.inner.Making.{makes};

use crate::returning::returns;
use crate::usage::Use;
use crate::uses::{uses_in, uses_in_all};
use jv_core::{CoreExpr, CoreExprKind, CoreStmt, CoreStmtKind};
use mg_text::{List, Memory};

// Whether an expression makes an object of this class, and is nothing else.
#[tactic(auto, using(jv_core::proofs::ViewLaws::views))]
fn is_new_of(class: u32, expr: &CoreExpr) -> bool
    ensures { result ≡ is_new_of class (expr_of expr.now) }
{
    match expr.kind {
        CoreExprKind::New(own) => own == class,
        CoreExprKind::Int(_) | CoreExprKind::Truth(_) | CoreExprKind::Text(_) => false,
        CoreExprKind::Null | CoreExprKind::Var(_) | CoreExprKind::Constant { .. } => false,
        CoreExprKind::Neg(_) | CoreExprKind::Not(_) | CoreExprKind::Binary(_, _, _) => false,
        CoreExprKind::Protocol { .. } | CoreExprKind::Helper { .. } => false,
        CoreExprKind::Static { .. } | CoreExprKind::Session { .. } => false,
        CoreExprKind::Equals(_, _) | CoreExprKind::Concat(_, _) => false,
    }
}

// Whether a statement declares a local with a new object of this class.
#[tactic(auto, using(crate::proofs::Beside::forms))]
fn makes(class: u32, stmt: &CoreStmt) -> bool
    ensures { result ≡ makes class (stmt_of stmt.now) }
{
    match &stmt.kind {
        CoreStmtKind::Local(_, value) => is_new_of(class, value),
        CoreStmtKind::If(_, _, otherwise) => match otherwise {
            Some(_) => false,
            None => false,
        },
        CoreStmtKind::Block(_, _) | CoreStmtKind::Empty | CoreStmtKind::Assign(_, _) => false,
        CoreStmtKind::While(_, _, _) | CoreStmtKind::Do(_, _, _) => false,
        CoreStmtKind::Switch(_, _, _) | CoreStmtKind::Break(_) => false,
        CoreStmtKind::Continue(_) | CoreStmtKind::Return(_) => false,
        CoreStmtKind::Print(_) | CoreStmtKind::Eval(_) => false,
    }
}

/// Appends the uses of the body of a method beside the making of an object of this class; all of
/// them where the body has no making: no declaration of a local with a new object of the class
/// stands among its own statements with no `return` in the statements before it. The only error is
/// want of memory.
#[tactic(auto, using(crate::proofs::Beside::adding))]
pub fn add_uses_beside_making(
    uses: &mut List<Use>,
    class: u32,
    body: &[CoreStmt],
) -> Result<(), Memory>
    ensures { OnOk result (uses.new.items ≡ uses.old.items ++ unwrap_or (uses_beside_making class (stmts_of (map stmt_of body.now)))
        (uses_in_all (stmts_of (map stmt_of body.now)))) }
{
    for (number, stmt) in body.iter().enumerate() {
        if makes(class, stmt) {
            return uses_in_all(uses, &body[number + 1..]);
        }
        if returns(stmt) {
            return uses_in_all(uses, &body[number..]);
        }
        uses_in(uses, stmt)?;
    }
    Ok(())
}

/// Whether the body of a method has a making of an object of this class.
#[tactic(auto, using(crate::proofs::Beside::finding))]
pub fn has_making(class: u32, body: &[CoreStmt]) -> bool
    ensures { result ≡ is_some (uses_beside_making class (stmts_of (map stmt_of body.now))) }
{
    for stmt in body {
        if makes(class, stmt) {
            return true;
        }
        if returns(stmt) {
            return false;
        }
    }
    false
}
