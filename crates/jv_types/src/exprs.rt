//! Expressions: the first fault in one, or its type.
//! Operands are judged from left to right, and then the node that takes them.

ghost use Rattle.std.specs.Prelude.{◌≡◌, map, false};
ghost use Rattle.jv_tree.specs.View.{expr_of, exprs_of};
ghost use Rattle.jv_tree.specs.Source.{Member};
ghost use Rattle.jv_types.specs.inner.Judging.{Judges};
ghost use Rattle.jv_types.specs.inner.Calls.{JudgesAll, JudgesReceiver};
ghost use Rattle.jv_types.specs.inner.Scopes.{scope_seen};

use crate::calls::{Given, Receiver, end_call, end_method_call};
use crate::ends::{end_binary, end_name, end_neg, end_not};
use crate::judged::{Checked, Wrong};
use crate::locals::Locals;
use crate::members::{end_named_member, end_own_member, variable_name};
use crate::operands::is_this;
use crate::receivers::is_receiver;
use crate::scope::Scope;
use crate::value_type::ValueType;
use jv_rules::Condition;
use jv_tree::{Expr, ExprKind};
use mg_text::Place;

/// Judges an expression: its type, or the first fault in it.
#[cycle(exprs)]
pub(crate) fn check_expr<'a>(
    scope: &Scope<'_, 'a>,
    locals: &Locals<'a>,
    expr: &'a Expr,
) -> Result<Checked<'a>, Wrong<'a>>
    ensures { Judges (scope_seen scope.now locals.now) (expr_of expr.now) result }
{
    let place = expr.place;
    match expr.kind {
        ExprKind::Int(_) => Ok(plain(ValueType::Int)),
        ExprKind::Truth(_) => Ok(plain(ValueType::Boolean)),
        ExprKind::Text(_) => Ok(plain(ValueType::Text)),
        ExprKind::Null => Ok(plain(ValueType::Null)),
        ExprKind::This => Err(Wrong::Fault(Condition::ThisAsValue, place, "")),
        ExprKind::Name(ref name) => end_name(scope, locals, place, name.as_str()),
        ExprKind::Member(ref of, ref name) => check_member(scope, locals, place, of, name.as_str()),
        ExprKind::Neg(ref of) => {
            let inner = check_expr(scope, locals, of)?;
            end_neg(place, of, inner)
        }
        ExprKind::Not(ref of) => {
            let inner = check_expr(scope, locals, of)?;
            end_not(place, of, inner)
        }
        ExprKind::Binary(op, ref left, ref right) => {
            let one = check_expr(scope, locals, left)?;
            let other = check_expr(scope, locals, right)?;
            end_binary(place, op, left, one, right, other)
        }
        ExprKind::Call(ref name, ref args) => {
            let args = args.as_slice();
            let given = check_args(scope, locals, args)?;
            end_call(scope, locals, place, name.as_str(), args, &given)
        }
        ExprKind::MethodCall(ref of, ref name, ref args) => {
            let args = args.as_slice();
            let receiver = check_receiver(scope, locals, of)?;
            let given = check_args(scope, locals, args)?;
            end_method_call(
                scope,
                locals,
                place,
                of,
                receiver,
                name.as_str(),
                args,
                &given,
            )
        }
        ExprKind::New(ref class) => Ok(plain(ValueType::Class(class.as_str()))),
    }
}

// An expression of this type in which nothing is called.
fn plain<'a>(ty: ValueType<'a>) -> Checked<'a>
    ensures { result ≡ record { ty = ty.entry; helper = false } }
{
    Checked { ty, helper: false }
}

// `e.name`
#[cycle(exprs)]
fn check_member<'a>(
    scope: &Scope<'_, 'a>,
    locals: &Locals<'a>,
    place: Place,
    of: &'a Expr,
    name: &'a str,
) -> Result<Checked<'a>, Wrong<'a>>
    ensures { Judges (scope_seen scope.now locals.now) (Member place (expr_of of.now) name.now) result }
{
    if is_this(of) {
        return end_own_member(scope, locals, place, of, name);
    }
    if let Some(x) = variable_name(of) {
        return end_named_member(scope, locals, place, of, x, name);
    }
    check_expr(scope, locals, of)?;
    Err(Wrong::Fault(Condition::UnknownName, place, name))
}

// What stands before `.name(..)`.
#[cycle(exprs)]
fn check_receiver<'a>(
    scope: &Scope<'_, 'a>,
    locals: &Locals<'a>,
    of: &'a Expr,
) -> Result<Receiver<'a>, Wrong<'a>>
    ensures { JudgesReceiver (scope_seen scope.now locals.now) (expr_of of.now) result }
{
    if is_this(of) {
        return Ok(Receiver::Own);
    }
    if let Some(x) = variable_name(of) {
        if is_receiver(scope, locals, x) {
            return Ok(Receiver::Named(x));
        }
        return Err(Wrong::Fault(Condition::UnknownName, of.place, x));
    }
    let inner = check_expr(scope, locals, of)?;
    Ok(Receiver::Value(inner))
}

// Judges arguments, from left to right.
#[cycle(exprs)]
fn check_args<'a>(
    scope: &Scope<'_, 'a>,
    locals: &Locals<'a>,
    args: &'a [Expr],
) -> Result<Given<'a>, Wrong<'a>>
    ensures { JudgesAll (scope_seen scope.now locals.now) (exprs_of (map expr_of args.now)) result }
{
    let mut given = Given::new(scope.alloc);
    for arg in args {
        let checked = check_expr(scope, locals, arg)?;
        given.add(checked)?;
    }
    Ok(given)
}
