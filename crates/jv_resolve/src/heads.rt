//! What stands before a `.`.
//! Contracts see it as a tree.

ghost use Rattle.std.specs.Prelude.{◌≡◌};
ghost use Rattle.jv_tree.specs.View.{expr_of};
ghost use Rattle.jv_resolve.specs.inner.Heads.{head_of};
ghost use Rattle.jv_resolve.specs.inner.HeadsSeen.{head_seen};

use jv_tree::{Expr, ExprKind};

/// What stands before a `.`.
#[derive(Clone, Copy)]
pub(crate) enum Head<'e> {
    This,
    Name(&'e str),
    /// Another expression.
    Other,
}

/// What an expression is before a `.`.
#[tactic(auto, using(jv_tree::proofs::ViewLaws::views))]
pub(crate) fn head_of(expr: &Expr) -> Head<'_>
    ensures { head_seen result ≡ head_of (expr_of expr.now) }
{
    match expr.kind {
        ExprKind::This => Head::This,
        ExprKind::Name(ref name) => Head::Name(name.as_str()),
        ExprKind::Int(_) | ExprKind::Truth(_) | ExprKind::Text(_) | ExprKind::Null => Head::Other,
        ExprKind::Member(_, _) | ExprKind::Neg(_) | ExprKind::Not(_) => Head::Other,
        ExprKind::Binary(_, _, _) | ExprKind::Call(_, _) => Head::Other,
        ExprKind::MethodCall(_, _, _) | ExprKind::New(_) => Head::Other,
    }
}
