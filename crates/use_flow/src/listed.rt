//! Statements of a list, and values of a switch: which form they have.
//! A declaration stays in scope behind it, and a call is followed label by label.

ghost use Rattle.std.specs.Prelude.{◌≡◌, option_map};
ghost use Rattle.jv_core.specs.View.{stmt_of, expr_of};
ghost use Rattle.use_flow.specs.inner.Listed.{declared_of, call_of};
ghost use Rattle.use_flow.specs.inner.Stepping.{local_in};
ghost use Rattle.use_flow.specs.inner.Switching.{call_in};

use jv_core::{CoreExpr, CoreExprKind, CoreStmt, CoreStmtKind, CoreVar};

/// A declaration: its slot, and its first value.
#[derive(Clone, Copy)]
pub(crate) struct Declaration<'s> {
    pub slot: u32,
    pub value: &'s CoreExpr,
}

// The declaration that a statement is, if it is one.
#[tactic(auto, using(jv_core::proofs::ViewLaws::views))]
pub(crate) fn local_in(statement: &CoreStmt) -> Option<Declaration<'_>>
    ensures { option_map declared_of result ≡ local_in (stmt_of statement.now) }
{
    match statement.kind {
        CoreStmtKind::Local(slot, ref value) => Some(Declaration { slot, value }),
        CoreStmtKind::If(_, _, ref otherwise) => match otherwise {
            Some(_) => None,
            None => None,
        },
        CoreStmtKind::Block(_, _) | CoreStmtKind::Empty | CoreStmtKind::Assign(_, _) => None,
        CoreStmtKind::While(_, _, _) | CoreStmtKind::Do(_, _, _) => None,
        CoreStmtKind::Switch(_, _, _) | CoreStmtKind::Break(_) | CoreStmtKind::Continue(_) => None,
        CoreStmtKind::Return(_) | CoreStmtKind::Print(_) | CoreStmtKind::Eval(_) => None,
    }
}

/// A call of a protocol method.
#[derive(Clone, Copy)]
pub(crate) struct Call<'s> {
    pub receiver: CoreVar,
    pub method: u32,
    pub args: &'s [CoreExpr],
}

// The call that a value is, if it is one of a protocol method.
#[tactic(auto, using(jv_core::proofs::ViewLaws::views))]
pub(crate) fn call_in(value: &CoreExpr) -> Option<Call<'_>>
    ensures { option_map call_of result ≡ call_in (expr_of value.now) }
{
    match value.kind {
        CoreExprKind::Protocol {
            receiver,
            method,
            ref args,
        } => Some(Call {
            receiver,
            method,
            args: args.as_slice(),
        }),
        CoreExprKind::Int(_) | CoreExprKind::Truth(_) | CoreExprKind::Text(_) => None,
        CoreExprKind::Null | CoreExprKind::Var(_) | CoreExprKind::New(_) => None,
        CoreExprKind::Constant { .. } | CoreExprKind::Neg(_) | CoreExprKind::Not(_) => None,
        CoreExprKind::Binary(_, _, _) | CoreExprKind::Helper { .. } => None,
        CoreExprKind::Static { .. } | CoreExprKind::Session { .. } => None,
        CoreExprKind::Equals(_, _) | CoreExprKind::Concat(_, _) => None,
    }
}
