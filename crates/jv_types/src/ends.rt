//! What is judged at a node of an expression, once nothing is wrong with its operands.

ghost use Rattle.std.specs.Prelude.{◌≡◌, ◌||◌, false};
ghost use Rattle.jv_tree.specs.View.{expr_of};
ghost use Rattle.jv_tree.specs.Source.{Variable, Neg, Not, Binary};
ghost use Rattle.jv_rules.specs.Scope.{Scope as Visible};
ghost use Rattle.jv_types.specs.inner.Judging.{IsChecked, Judges};
ghost use Rattle.jv_types.specs.inner.Scopes.{scope_seen};

use crate::judged::{Checked, Wrong};
use crate::locals::Locals;
use crate::operands::{misfit, operand_misfit, operator_type};
use crate::scope::Scope;
use crate::value_type::ValueType;
use crate::variable::variable_type;
use jv_rules::Condition;
use jv_tree::{Expr, Op};
use mg_text::Place;

/// A variable.
#[tactic(auto, using(crate::proofs::Checking::variables))]
pub(crate) fn end_name<'a>(
    scope: &Scope<'_, 'a>,
    locals: &Locals<'a>,
    place: Place,
    name: &'a str,
) -> Result<Checked<'a>, Wrong<'a>>
    ensures { Judges (scope_seen scope.now locals.now) (Variable place name.now) result }
{
    match variable_type(scope, locals, name) {
        Some(ty) => Ok(Checked { ty, helper: false }),
        None => Err(Wrong::Fault(Condition::UnknownName, place, name)),
    }
}

/// `-e`
#[tactic(auto, using(crate::proofs::Checking::negs))]
pub(crate) fn end_neg<'a>(
    place: Place,
    of: &Expr,
    inner: Checked<'_>,
) -> Result<Checked<'a>, Wrong<'a>>
    ensures { (s : Visible) → IsChecked s (expr_of of.now) inner.entry → Judges s (Neg place (expr_of of.now)) result }
{
    match misfit(ValueType::Int, of, inner.ty) {
        Some(at) => Err(Wrong::Fault(Condition::TypeMismatch, at, "")),
        None => Ok(Checked {
            ty: ValueType::Int,
            helper: inner.helper,
        }),
    }
}

/// `!e`
#[tactic(auto, using(crate::proofs::Checking::nots))]
pub(crate) fn end_not<'a>(
    place: Place,
    of: &Expr,
    inner: Checked<'_>,
) -> Result<Checked<'a>, Wrong<'a>>
    ensures { (s : Visible) → IsChecked s (expr_of of.now) inner.entry → Judges s (Not place (expr_of of.now)) result }
{
    match misfit(ValueType::Boolean, of, inner.ty) {
        Some(at) => Err(Wrong::Fault(Condition::TypeMismatch, at, "")),
        None => Ok(Checked {
            ty: ValueType::Boolean,
            helper: inner.helper,
        }),
    }
}

/// A binary operator.
#[tactic(auto, using(crate::proofs::Checking::binaries))]
pub(crate) fn end_binary<'a>(
    place: Place,
    op: Op,
    left: &Expr,
    one: Checked<'a>,
    right: &Expr,
    other: Checked<'a>,
) -> Result<Checked<'a>, Wrong<'a>>
    ensures { (s : Visible) → IsChecked s (expr_of left.now) one.entry → IsChecked s (expr_of right.now) other.entry →
        Judges s (Binary place op (expr_of left.now) (expr_of right.now)) result }
{
    match operand_misfit(op, left, one.ty, right, other.ty) {
        Some(at) => Err(Wrong::Fault(Condition::TypeMismatch, at, "")),
        None => Ok(Checked {
            ty: operator_type(op, one.ty, other.ty),
            helper: either(one.helper, other.helper),
        }),
    }
}

/// Whether one of two facts holds.
pub(crate) fn either(a: bool, b: bool) -> bool
    ensures { result ≡ (a || b) }
{
    a || b
}
