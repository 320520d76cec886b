//! Expressions.
//! Contracts see them as trees, and what they are resolved to.

ghost use Rattle.std.specs.Prelude.{◌≡◌, map};
ghost use Rattle.jv_tree.specs.View.{expr_of, exprs_of};
ghost use Rattle.jv_core.specs.View.{expr_of as core_expr};
ghost use Rattle.jv_resolve_law.specs.Expressions.{resolved, resolved_all, receiver, make};
ghost use Rattle.jv_resolve.specs.inner.Gives.{Gives};
ghost use Rattle.jv_resolve.specs.inner.Seen.{tables_seen, standing_seen, resolved_seen, operand_seen};
ghost use Rattle.jv_resolve.specs.inner.Receivers.{receiver_seen};

use crate::calls::{Receiver, call_on, call_own};
use crate::given::{Operand, Resolved, Unresolved, as_operand, typed};
use crate::heads::{Head, head_of};
use crate::literals::{int, null, quoted, truth};
use crate::locals::Locals;
use crate::lookup::class_named;
use crate::operators::binary;
use crate::scope::Scope;
use crate::variables::{member, named_receiver, variable};
use jv_core::{CoreExpr, CoreExprKind, CoreType};
use jv_tree::{Expr, ExprKind};
use mg_text::{List, Place};

/// An expression.
#[cycle(exprs)]
pub(crate) fn resolve_expr(
    scope: &Scope<'_, '_>,
    locals: &Locals<'_>,
    expr: &Expr,
) -> Result<Resolved, Unresolved>
    ensures { Gives resolved_seen result (resolved (tables_seen scope.now.table.now) (standing_seen scope.now) locals.now
        (expr_of expr.now)) }
{
    let place = expr.place;
    match expr.kind {
        ExprKind::Int(value) => Ok(int(place, value)),
        ExprKind::Truth(value) => Ok(truth(place, value)),
        ExprKind::Text(ref text) => Ok(quoted(place, text)?),
        ExprKind::Null => Ok(null(place)),
        ExprKind::This => Err(Unresolved::Fault),
        ExprKind::Name(ref name) => variable(scope, locals, place, name.as_str()),
        ExprKind::Member(ref of, ref name) => member(scope, locals, place, of, name.as_str()),
        ExprKind::Neg(ref of) => {
            let inner = resolve_operand(scope, locals, of)?;
            Ok(typed(place, CoreExprKind::Neg(inner.expr), CoreType::Int))
        }
        ExprKind::Not(ref of) => {
            let inner = resolve_operand(scope, locals, of)?;
            Ok(typed(place, CoreExprKind::Not(inner.expr), CoreType::Boolean))
        }
        ExprKind::Binary(op, ref left, ref right) => {
            let left = resolve_operand(scope, locals, left)?;
            let right = resolve_operand(scope, locals, right)?;
            Ok(binary(place, op, left, right))
        }
        ExprKind::Call(ref name, ref args) => {
            let args = resolve_args(scope, locals, args.as_slice())?;
            call_own(scope, place, name.as_str(), args)
        }
        ExprKind::MethodCall(ref of, ref name, ref args) => {
            let receiver = resolve_receiver(scope, locals, of)?;
            let args = resolve_args(scope, locals, args.as_slice())?;
            call_on(scope, place, receiver, name.as_str(), args)
        }
        ExprKind::New(ref name) => new(scope, place, name.as_str()),
    }
}

/// An expression in a box.
#[cycle(exprs)]
pub(crate) fn resolve_operand(
    scope: &Scope<'_, '_>,
    locals: &Locals<'_>,
    expr: &Expr,
) -> Result<Operand, Unresolved>
    ensures { Gives operand_seen result (resolved (tables_seen scope.now.table.now) (standing_seen scope.now) locals.now
        (expr_of expr.now)) }
{
    let value = resolve_expr(scope, locals, expr)?;
    Ok(as_operand(scope.alloc, value)?)
}

// Arguments.
#[cycle(exprs)]
fn resolve_args(
    scope: &Scope<'_, '_>,
    locals: &Locals<'_>,
    args: &[Expr],
) -> Result<List<CoreExpr>, Unresolved>
    ensures { Gives (λ l. map core_expr l.items) result
        (resolved_all (tables_seen scope.now.table.now) (standing_seen scope.now) locals.now (exprs_of (map expr_of args.now))) }
{
    let mut resolved = List::new(scope.alloc);
    for arg in args {
        let arg = resolve_expr(scope, locals, arg)?;
        resolved.push(arg.expr)?;
    }
    Ok(resolved)
}

// What a call is on. A name that is no variable's is a class's.
#[cycle(exprs)]
fn resolve_receiver<'e>(
    scope: &Scope<'_, '_>,
    locals: &Locals<'_>,
    of: &'e Expr,
) -> Result<Receiver<'e>, Unresolved>
    ensures { Gives receiver_seen result (receiver (tables_seen scope.now.table.now) (standing_seen scope.now) locals.now (expr_of of.now)
        (resolved (tables_seen scope.now.table.now) (standing_seen scope.now) locals.now (expr_of of.now))) }
{
    match head_of(of) {
        Head::This => Ok(Receiver::This),
        Head::Name(name) => named_receiver(scope, locals, of.place, name),
        Head::Other => {
            let value = resolve_operand(scope, locals, of)?;
            Ok(Receiver::Value(value))
        }
    }
}

// `new C()`
fn new(scope: &Scope<'_, '_>, place: Place, name: &str) -> Result<Resolved, Unresolved>
    ensures { Gives resolved_seen result (make (tables_seen scope.now.table.now) (standing_seen scope.now) place name.now) }
{
    match class_named(scope.table, name) {
        None => Err(Unresolved::Fault),
        Some(entry) => Ok(typed(
            place,
            CoreExprKind::New(entry.number),
            CoreType::Object(entry.number),
        )),
    }
}
