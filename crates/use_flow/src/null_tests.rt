//! Which comparisons are null tests, and of which variable.
//! Where one holds the variable is null, or where it fails.

ghost use Rattle.std.specs.Prelude.{◌≡◌, option_map};
ghost use Rattle.jv_core.specs.View.{expr_of};
ghost use Rattle.use_rules.specs.Flow.{tested, null_test};
ghost use Rattle.use_flow.specs.inner.Values.{test_of, variable_in, is_null};

use crate::evaluated::NullTest;
use jv_core::{CoreExpr, CoreExprKind, CoreOp, Var};

// The variable that an expression is, if it is one.
#[tactic(auto, using(crate::proofs::Tested::seen))]
fn variable_of(expr: &CoreExpr) -> Option<Var>
    ensures { result ≡ variable_in (expr_of expr.now) }
{
    match expr.kind {
        CoreExprKind::Var(variable) => Some(variable),
        CoreExprKind::Int(_) | CoreExprKind::Truth(_) | CoreExprKind::Text(_) => None,
        CoreExprKind::Null | CoreExprKind::Constant { .. } | CoreExprKind::New(_) => None,
        CoreExprKind::Neg(_) | CoreExprKind::Not(_) | CoreExprKind::Binary(_, _, _) => None,
        CoreExprKind::Protocol { .. } | CoreExprKind::Helper { .. } => None,
        CoreExprKind::Static { .. } | CoreExprKind::Session { .. } => None,
        CoreExprKind::Equals(_, _) | CoreExprKind::Concat(_, _) => None,
    }
}

// Whether an expression is `null`.
fn is_null(expr: &CoreExpr) -> bool
    ensures { result ≡ is_null (expr_of expr.now) }
{
    match expr.kind {
        CoreExprKind::Null => true,
        CoreExprKind::Int(_) | CoreExprKind::Truth(_) | CoreExprKind::Text(_) => false,
        CoreExprKind::Var(_) | CoreExprKind::Constant { .. } | CoreExprKind::New(_) => false,
        CoreExprKind::Neg(_) | CoreExprKind::Not(_) | CoreExprKind::Binary(_, _, _) => false,
        CoreExprKind::Protocol { .. } | CoreExprKind::Helper { .. } => false,
        CoreExprKind::Static { .. } | CoreExprKind::Session { .. } => false,
        CoreExprKind::Equals(_, _) | CoreExprKind::Concat(_, _) => false,
    }
}

// The variable that is compared with null.
#[tactic(auto, using(crate::proofs::Tested::tests))]
fn tested(left: &CoreExpr, right: &CoreExpr) -> Option<Var>
    ensures { result ≡ tested (expr_of left.now) (expr_of right.now) }
{
    if is_null(right) {
        return variable_of(left);
    }
    if is_null(left) {
        return variable_of(right);
    }
    None
}

// A test of the variable that is compared with null, if one is.
fn test_with(holds: bool, left: &CoreExpr, right: &CoreExpr) -> Option<NullTest>
    ensures { option_map test_of result ≡ option_map (λ x. record { variable = x; holds = holds })
        (tested (expr_of left.now) (expr_of right.now)) }
{
    let variable = tested(left, right)?;
    Some(NullTest { variable, holds })
}

// The null test that a comparison is, if it is one.
pub(crate) fn null_test(op: CoreOp, left: &CoreExpr, right: &CoreExpr) -> Option<NullTest>
    ensures { option_map test_of result ≡ null_test op (expr_of left.now) (expr_of right.now) }
{
    match op {
        CoreOp::Eq => test_with(true, left, right),
        CoreOp::Ne => test_with(false, left, right),
        CoreOp::Add | CoreOp::Sub | CoreOp::Mul | CoreOp::Div | CoreOp::Rem => None,
        CoreOp::Lt | CoreOp::Le | CoreOp::Gt | CoreOp::Ge => None,
        CoreOp::And | CoreOp::Or => None,
    }
}
