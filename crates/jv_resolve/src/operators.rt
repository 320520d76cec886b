//! Binary operators.
//! Contracts see expressions as trees.

ghost use Rattle.std.specs.Prelude.{◌≡◌};
ghost use Rattle.jv_core.specs.Tree as Core;
ghost use Rattle.jv_core.specs.View.{expr_of};
ghost use Rattle.jv_resolve_law.specs.Expressions.{typed, operator_gives, is_text};
ghost use Rattle.jv_resolve.specs.inner.Seen.{given_seen, resolved_seen};

use crate::given::{Given, Operand, Resolved, typed};
use jv_core::{CoreExprKind, CoreType};
use jv_tree::Op;
use mg_text::Place;

/// A binary operator.
pub(crate) fn binary(place: Place, op: Op, left: Operand, right: Operand) -> Resolved
    ensures { resolved_seen result ≡ typed (Core.Binary place op (expr_of left.expr.value) (expr_of right.expr.value))
        (operator_gives op (given_seen left.given) (given_seen right.given)) }
{
    let given = operator_type(op, left.given, right.given);
    typed(
        place,
        CoreExprKind::Binary(op, left.expr, right.expr),
        given,
    )
}

// What an operator gives, of operands of these types.
fn operator_type(op: Op, left: Given, right: Given) -> CoreType
    ensures { result ≡ operator_gives op (given_seen left) (given_seen right) }
{
    match op {
        Op::Or | Op::And | Op::Eq | Op::Ne | Op::Lt | Op::Le | Op::Gt | Op::Ge => CoreType::Boolean,
        Op::Add => {
            if is_text(left) {
                return CoreType::Text;
            }
            if is_text(right) {
                return CoreType::Text;
            }
            CoreType::Int
        }
        Op::Sub | Op::Mul | Op::Div | Op::Rem => CoreType::Int,
    }
}

// Whether a type is String.
fn is_text(given: Given) -> bool
    ensures { result ≡ is_text (given_seen given) }
{
    matches!(given, Given::Of(CoreType::Text))
}
