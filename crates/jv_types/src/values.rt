//! Values that are taken: whether their types are what is wanted.

ghost use Rattle.std.specs.Prelude.{◌≡◌, option_map};
ghost use Rattle.jv_tree.specs.View.{expr_of};
ghost use Rattle.jv_types.specs.inner.View.{type_seen};
ghost use Rattle.jv_types.specs.inner.Judging.{misfit, at_place};
ghost use Rattle.jv_types.specs.inner.Scopes.{scope_seen};
ghost use Rattle.jv_types.specs.inner.Stating.{wanted_seen, value_told, Answers};

use crate::exprs::check_expr;
use crate::judged::Wrong;
use crate::locals::Locals;
use crate::operands::{misfit, unwritable};
use crate::scope::Scope;
use crate::value_type::ValueType;
use jv_rules::Condition;
use jv_tree::Expr;
use mg_text::Place;

/// What is wanted of a value.
#[derive(Clone, Copy)]
pub(crate) enum Wanted<'a> {
    /// One that fits this type.
    Fitting(ValueType<'a>),
    /// One that can be written.
    Writable,
    /// A constant of an enum.
    AnyEnum,
    /// No value is right.
    Nothing,
}

/// The place of a value that isn't what is wanted.
#[tactic(auto, using(crate::proofs::Seen::seen))]
pub(crate) fn wanted_misfit(wanted: Wanted<'_>, expr: &Expr, given: ValueType<'_>) -> Option<Place>
    ensures { option_map at_place result ≡ misfit (wanted_seen wanted.entry) (expr_of expr.now) (type_seen given.entry) }
{
    match wanted {
        Wanted::Fitting(taken) => misfit(taken, expr, given),
        Wanted::Writable => unwritable(expr, given),
        Wanted::AnyEnum => match given {
            ValueType::Enum(_) => None,
            _ => Some(expr.place),
        },
        Wanted::Nothing => Some(expr.place),
    }
}

/// Judges an expression and whether its value is what is wanted.
pub(crate) fn check_value<'a>(
    scope: &Scope<'_, 'a>,
    locals: &Locals<'a>,
    expr: &'a Expr,
    wanted: Wanted<'_>,
) -> Result<(), Wrong<'a>>
    ensures { Answers (value_told (scope_seen scope.now locals.now) (expr_of expr.now) (wanted_seen wanted.entry)) result }
{
    let checked = check_expr(scope, locals, expr)?;
    match wanted_misfit(wanted, expr, checked.ty) {
        Some(at) => Err(Wrong::Fault(Condition::TypeMismatch, at, "")),
        None => Ok(()),
    }
}
