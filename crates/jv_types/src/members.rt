//! What is judged at `e.name`: an own field behind `this`, or a constant behind the name of an enum.

ghost use Rattle.std.specs.Prelude.{◌≡◌, option_map, Some, None, true};
ghost use Rattle.jv_tree.specs.View.{expr_of};
ghost use Rattle.jv_tree.specs.Source.{Member};
ghost use Rattle.jv_types.specs.inner.Judging.{Judges, is_this, variable_name};
ghost use Rattle.jv_types.specs.inner.Scopes.{scope_seen};

use crate::judged::{Checked, Wrong};
use crate::locals::Locals;
use crate::receivers::names_class;
use crate::scope::Scope;
use crate::value_type::ValueType;
use crate::variable::{field_type, variable_type};
use jv_rules::Condition;
use jv_tree::{Expr, ExprKind};
use mg_text::Place;

/// The name that an expression is.
#[tactic(auto, using(crate::proofs::Seen::seen))]
pub(crate) fn variable_name<'a>(expr: &'a Expr) -> Option<&'a str>
    ensures { option_map (λ n. n.now) result ≡ variable_name (expr_of expr.now) }
{
    match &expr.kind {
        ExprKind::Name(name) => Some(name.as_str()),
        ExprKind::Int(_) | ExprKind::Truth(_) | ExprKind::Text(_) | ExprKind::Null => None,
        ExprKind::This | ExprKind::Member(_, _) | ExprKind::Neg(_) | ExprKind::Not(_) => None,
        ExprKind::Binary(_, _, _) | ExprKind::Call(_, _) => None,
        ExprKind::MethodCall(_, _, _) | ExprKind::New(_) => None,
    }
}

/// `this.name`
pub(crate) fn end_own_member<'a>(
    scope: &Scope<'_, 'a>,
    locals: &Locals<'a>,
    place: Place,
    of: &Expr,
    name: &'a str,
) -> Result<Checked<'a>, Wrong<'a>>
    requires { is_this (expr_of of.now) ≡ true }
    ensures { Judges (scope_seen scope.now locals.now) (Member place (expr_of of.now) name.now) result }
{
    match field_type(scope, locals, name) {
        Some(ty) => Ok(Checked { ty, helper: false }),
        None => Err(Wrong::Fault(Condition::UnknownName, place, name)),
    }
}

/// `x.name`
pub(crate) fn end_named_member<'a>(
    scope: &Scope<'_, 'a>,
    locals: &Locals<'a>,
    place: Place,
    of: &Expr,
    x: &'a str,
    name: &'a str,
) -> Result<Checked<'a>, Wrong<'a>>
    requires { variable_name (expr_of of.now) ≡ Some x.now }
    ensures { Judges (scope_seen scope.now locals.now) (Member place (expr_of of.now) name.now) result }
{
    match variable_type(scope, locals, x) {
        Some(_ty) => Err(Wrong::Fault(Condition::UnknownName, place, name)),
        None => match scope.table.enum_named(x) {
            None => {
                if names_class(scope, locals, x) {
                    return Err(Wrong::Fault(Condition::UnknownName, place, name));
                }
                Err(Wrong::Fault(Condition::UnknownName, of.place, x))
            }
            Some(entry) => {
                if entry.has_constant(name) {
                    return Ok(Checked {
                        ty: ValueType::Enum(x),
                        helper: false,
                    });
                }
                Err(Wrong::Fault(Condition::UnknownName, place, name))
            }
        },
    }
}
