//! Which operand of an operator has a wrong type.

ghost use Rattle.std.specs.Prelude.{◌≡◌, option_map, Some};
ghost use Rattle.jv_tree.specs.View.{expr_of};
ghost use Rattle.jv_rules.specs.Scope.{is_variable};
ghost use Rattle.jv_rules.specs.Taking.{Fitting, Writable, ClassVariable};
ghost use Rattle.jv_rules.specs.Typing.{operator_type};
ghost use Rattle.jv_types.specs.inner.View.{type_seen};
ghost use Rattle.jv_types.specs.inner.Judging.{is_this, misfit, misfits, compared_misfit, operand_misfit, at_place};

use crate::value_type::{ValueType, fits};
use jv_tree::{Expr, ExprKind, Op};
use mg_text::Place;

/// Whether an expression is `this`.
#[tactic(auto, using(crate::proofs::Seen::seen))]
pub(crate) fn is_this(expr: &Expr) -> bool
    ensures { result ≡ is_this (expr_of expr.now) }
{
    match expr.kind {
        ExprKind::This => true,
        ExprKind::Int(_) | ExprKind::Truth(_) | ExprKind::Text(_) | ExprKind::Null => false,
        ExprKind::Name(_) | ExprKind::Member(_, _) | ExprKind::Neg(_) => false,
        ExprKind::Not(_) | ExprKind::Binary(_, _, _) | ExprKind::Call(_, _) => false,
        ExprKind::MethodCall(_, _, _) | ExprKind::New(_) => false,
    }
}

/// Whether an expression has the form of a variable.
#[tactic(auto, using(crate::proofs::Seen::seen))]
pub(crate) fn is_variable(expr: &Expr) -> bool
    ensures { result ≡ is_variable (expr_of expr.now) }
{
    match expr.kind {
        ExprKind::Name(_) => true,
        ExprKind::Member(ref of, _) => is_this(of),
        ExprKind::Int(_) | ExprKind::Truth(_) | ExprKind::Text(_) | ExprKind::Null => false,
        ExprKind::This | ExprKind::Neg(_) | ExprKind::Not(_) => false,
        ExprKind::Binary(_, _, _) | ExprKind::Call(_, _) => false,
        ExprKind::MethodCall(_, _, _) | ExprKind::New(_) => false,
    }
}

/// The place of a value that doesn't fit.
#[tactic(auto, using(crate::proofs::Seen::seen))]
pub(crate) fn misfit(taken: ValueType<'_>, expr: &Expr, given: ValueType<'_>) -> Option<Place>
    ensures { option_map at_place result ≡ misfit (Fitting (type_seen taken.entry)) (expr_of expr.now) (type_seen given.entry) }
{
    if fits(taken, given) {
        return None;
    }
    Some(expr.place)
}

/// The place of a value that can't be written.
#[tactic(auto, using(crate::proofs::Seen::seen))]
pub(crate) fn unwritable(expr: &Expr, given: ValueType<'_>) -> Option<Place>
    ensures { option_map at_place result ≡ misfit Writable (expr_of expr.now) (type_seen given.entry) }
{
    match given {
        ValueType::Int => None,
        ValueType::Boolean => None,
        ValueType::Text => None,
        _ => Some(expr.place),
    }
}

/// The place of a value that is no variable of a class.
#[tactic(auto, using(crate::proofs::Seen::seen))]
pub(crate) fn no_variable(expr: &Expr, given: ValueType<'_>) -> Option<Place>
    ensures { option_map at_place result ≡ misfit ClassVariable (expr_of expr.now) (type_seen given.entry) }
{
    match given {
        ValueType::Class(_) => {
            if is_variable(expr) {
                return None;
            }
            Some(expr.place)
        }
        _ => Some(expr.place),
    }
}

// The first of two operands that doesn't fit.
fn misfits(
    taken: ValueType<'_>,
    left: &Expr,
    one: ValueType<'_>,
    right: &Expr,
    other: ValueType<'_>,
) -> Option<Place>
    ensures { option_map at_place result ≡ misfits (type_seen taken.entry) (expr_of left.now) (type_seen one.entry) (expr_of right.now)
        (type_seen other.entry) }
{
    match misfit(taken, left, one) {
        Some(place) => Some(place),
        None => misfit(taken, right, other),
    }
}

// The operand of `==` that is wrong.
#[tactic(auto, using(crate::proofs::Seen::seen))]
fn compared_misfit(
    left: &Expr,
    one: ValueType<'_>,
    right: &Expr,
    other: ValueType<'_>,
) -> Option<Place>
    ensures { option_map at_place result ≡ compared_misfit (expr_of left.now) (type_seen one.entry) (expr_of right.now)
        (type_seen other.entry) }
{
    match one {
        ValueType::Int => misfit(one, right, other),
        ValueType::Boolean => misfit(one, right, other),
        ValueType::Enum(_) => misfit(one, right, other),
        ValueType::Null => no_variable(right, other),
        ValueType::Class(_) => {
            if is_variable(left) {
                return misfit(ValueType::Null, right, other);
            }
            Some(left.place)
        }
        ValueType::NoValue => Some(left.place),
        ValueType::Text => Some(left.place),
    }
}

/// The place of the first operand that is wrong, of operands of these types.
pub(crate) fn operand_misfit(
    op: Op,
    left: &Expr,
    one: ValueType<'_>,
    right: &Expr,
    other: ValueType<'_>,
) -> Option<Place>
    ensures { option_map at_place result ≡ operand_misfit op (expr_of left.now) (type_seen one.entry) (expr_of right.now)
        (type_seen other.entry) }
{
    match op {
        Op::Or | Op::And => misfits(ValueType::Boolean, left, one, right, other),
        Op::Eq | Op::Ne => compared_misfit(left, one, right, other),
        Op::Add => match one {
            ValueType::Text => unwritable(right, other),
            _ => match other {
                ValueType::Text => unwritable(left, one),
                _ => misfits(ValueType::Int, left, one, right, other),
            },
        },
        Op::Lt | Op::Le | Op::Gt | Op::Ge => misfits(ValueType::Int, left, one, right, other),
        Op::Sub | Op::Mul | Op::Div | Op::Rem => misfits(ValueType::Int, left, one, right, other),
    }
}

/// The type that an operator gives.
pub(crate) fn operator_type<'a>(op: Op, one: ValueType<'a>, other: ValueType<'a>) -> ValueType<'a>
    ensures { type_seen result ≡ operator_type op (Some (type_seen one.entry)) (Some (type_seen other.entry)) }
{
    match op {
        Op::Or | Op::And | Op::Eq | Op::Ne => ValueType::Boolean,
        Op::Lt | Op::Le | Op::Gt | Op::Ge => ValueType::Boolean,
        Op::Add => match one {
            ValueType::Text => ValueType::Text,
            _ => match other {
                ValueType::Text => ValueType::Text,
                _ => ValueType::Int,
            },
        },
        Op::Sub | Op::Mul | Op::Div | Op::Rem => ValueType::Int,
    }
}
