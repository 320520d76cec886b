//! Calls, whose receiver and arguments are resolved.
//! Contracts see expressions as trees.

ghost use Rattle.std.specs.Prelude.{◌≡◌, map};
ghost use Rattle.jv_core.specs.View.{expr_of};
ghost use Rattle.jv_resolve_law.specs.Expressions.{call_own, call_on, call_this, call_class, call_typed, call_protocol, static_call};
ghost use Rattle.jv_resolve_law.specs.Expressions.{helper_call, object_call, text_call, only, session_call};
ghost use Rattle.jv_resolve_law.specs.Expressions.{variable_in};
ghost use Rattle.jv_resolve.specs.inner.Gives.{Gives};
ghost use Rattle.jv_resolve.specs.inner.Seen.{tables_seen, standing_seen, callee_seen, given_seen, resolved_seen};
ghost use Rattle.jv_resolve.specs.inner.Named.{text_called};
ghost use Rattle.jv_resolve.specs.inner.Receivers.{receiver_seen};

use crate::given::{Given, Operand, Resolved, Unresolved, boxed, typed};
use crate::lookup::{Callee, class_at, class_named, meant, method_named};
use crate::scope::Scope;
use jv_core::{CoreExpr, CoreExprKind, CoreType, CoreVar, SessionCall};
use jv_tree::TextCall;
use mg_text::{List, Place};

/// What a call is on.
#[derive(Drop)]
pub(crate) enum Receiver<'e> {
    This,
    /// A name that no variable has.
    Class(&'e str),
    Value(Operand),
}

/// `name(..)`: a method of the own class.
pub(crate) fn call_own(
    scope: &Scope<'_, '_>,
    place: Place,
    name: &str,
    args: List<CoreExpr>,
) -> Result<Resolved, Unresolved>
    ensures { Gives resolved_seen result (call_own (tables_seen scope.now.table.now) (standing_seen scope.now) place name.now
        (map expr_of args.items)) }
{
    let Some(callee) = method_named(scope.class, name) else {
        return Err(Unresolved::Fault);
    };
    if callee.method.is_static {
        static_call(scope, place, callee, args)
    } else {
        helper_call(scope, place, callee, args)
    }
}

/// `e.name(..)`
pub(crate) fn call_on(
    scope: &Scope<'_, '_>,
    place: Place,
    receiver: Receiver<'_>,
    name: &str,
    args: List<CoreExpr>,
) -> Result<Resolved, Unresolved>
    ensures { Gives resolved_seen result
        (call_on (tables_seen scope.now.table.now) (standing_seen scope.now) place (receiver_seen receiver.entry) name.now
        (map expr_of args.items)) }
{
    match receiver {
        Receiver::This => call_this(scope, place, name, args),
        Receiver::Class(class) => {
            if class == "Session" {
                session_call(place, name, args)
            } else {
                call_class(scope, place, class, name, args)
            }
        }
        Receiver::Value(value) => call_value(scope, place, value, name, args),
    }
}

// `this.name(..)`
fn call_this(
    scope: &Scope<'_, '_>,
    place: Place,
    name: &str,
    args: List<CoreExpr>,
) -> Result<Resolved, Unresolved>
    ensures { Gives resolved_seen result (call_this (tables_seen scope.now.table.now) (standing_seen scope.now) place name.now
        (map expr_of args.items)) }
{
    let Some(callee) = method_named(scope.class, name) else {
        return Err(Unresolved::Fault);
    };
    if callee.method.is_static {
        return Err(Unresolved::Fault);
    }
    helper_call(scope, place, callee, args)
}

// `C.name(..)`
fn call_class(
    scope: &Scope<'_, '_>,
    place: Place,
    class: &str,
    name: &str,
    args: List<CoreExpr>,
) -> Result<Resolved, Unresolved>
    ensures { Gives resolved_seen result (call_class (tables_seen scope.now.table.now) place class.now name.now (map expr_of args.items)) }
{
    let Some(entry) = class_named(scope.table, class) else {
        return Err(Unresolved::Fault);
    };
    let Some(callee) = method_named(entry, name) else {
        return Err(Unresolved::Fault);
    };
    if !callee.method.is_static {
        return Err(Unresolved::Fault);
    }
    static_call(scope, place, callee, args)
}

// A call on a value: of a text's method, or of the protocol of a variable.
fn call_value(
    scope: &Scope<'_, '_>,
    place: Place,
    value: Operand,
    name: &str,
    args: List<CoreExpr>,
) -> Result<Resolved, Unresolved>
    ensures { Gives resolved_seen result
        (call_typed (tables_seen scope.now.table.now) place (expr_of value.expr.value) (given_seen value.given) name.now
        (map expr_of args.items)) }
{
    match value.given {
        Given::Of(CoreType::Text) => text_call(scope, place, value.expr, name, args),
        Given::Of(CoreType::Object(class)) => {
            let receiver = variable_of(&value.expr)?;
            protocol_call(scope, place, receiver, class, name, args)
        }
        _ => Err(Unresolved::Fault),
    }
}

/// The variable that an expression is, with its place.
#[tactic(auto, using(jv_core::proofs::ViewLaws::views))]
pub(crate) fn variable_of(expr: &CoreExpr) -> Result<CoreVar, Unresolved>
    ensures { Gives (λ x. x) result (variable_in (expr_of expr.now)) }
{
    match expr.kind {
        CoreExprKind::Var(var) => Ok(CoreVar {
            place: expr.place,
            var,
        }),
        CoreExprKind::Int(_) | CoreExprKind::Truth(_) | CoreExprKind::Text(_) => {
            Err(Unresolved::Fault)
        }
        CoreExprKind::Null | CoreExprKind::Constant { .. } => Err(Unresolved::Fault),
        CoreExprKind::Neg(_) | CoreExprKind::Not(_) => Err(Unresolved::Fault),
        CoreExprKind::Binary(_, _, _) => Err(Unresolved::Fault),
        CoreExprKind::Protocol { .. } | CoreExprKind::Helper { .. } => Err(Unresolved::Fault),
        CoreExprKind::Static { .. } | CoreExprKind::Session { .. } => Err(Unresolved::Fault),
        CoreExprKind::Equals(_, _) | CoreExprKind::Concat(_, _) => Err(Unresolved::Fault),
        CoreExprKind::New(_) => Err(Unresolved::Fault),
    }
}

// A call of a protocol's method, on a variable of the class of this number.
fn protocol_call(
    scope: &Scope<'_, '_>,
    place: Place,
    receiver: CoreVar,
    class: u32,
    name: &str,
    args: List<CoreExpr>,
) -> Result<Resolved, Unresolved>
    ensures { Gives resolved_seen result
        (call_protocol (tables_seen scope.now.table.now) place receiver class name.now (map expr_of args.items)) }
{
    let Some(entry) = class_at(scope.table, class) else {
        return Err(Unresolved::Fault);
    };
    let Some(callee) = method_named(entry, name) else {
        return Err(Unresolved::Fault);
    };
    if callee.method.is_static {
        return Err(Unresolved::Fault);
    }
    object_call(scope, place, receiver, callee, args)
}

// A call of a method on the object of a variable.
fn object_call(
    scope: &Scope<'_, '_>,
    place: Place,
    receiver: CoreVar,
    callee: Callee<'_>,
    args: List<CoreExpr>,
) -> Result<Resolved, Unresolved>
    ensures { Gives resolved_seen result (object_call (tables_seen scope.now.table.now) place receiver (callee_seen callee.entry)
        (map expr_of args.items)) }
{
    let result = meant(scope.table, &callee.method.result)?;
    Ok(typed(
        place,
        CoreExprKind::Protocol {
            receiver,
            method: callee.number,
            args,
        },
        result,
    ))
}

// A call of a static method.
fn static_call(
    scope: &Scope<'_, '_>,
    place: Place,
    callee: Callee<'_>,
    args: List<CoreExpr>,
) -> Result<Resolved, Unresolved>
    ensures { Gives resolved_seen result (static_call (tables_seen scope.now.table.now) place (callee_seen callee.entry)
        (map expr_of args.items)) }
{
    let result = meant(scope.table, &callee.method.result)?;
    Ok(typed(
        place,
        CoreExprKind::Static {
            method: callee.number,
            args,
        },
        result,
    ))
}

// A call of another method on the own object.
fn helper_call(
    scope: &Scope<'_, '_>,
    place: Place,
    callee: Callee<'_>,
    args: List<CoreExpr>,
) -> Result<Resolved, Unresolved>
    ensures { Gives resolved_seen result (helper_call (tables_seen scope.now.table.now) place (callee_seen callee.entry)
        (map expr_of args.items)) }
{
    let result = meant(scope.table, &callee.method.result)?;
    Ok(typed(
        place,
        CoreExprKind::Helper {
            method: callee.number,
            args,
        },
        result,
    ))
}

// `equals` or `concat` of a text, with one argument.
fn text_call(
    scope: &Scope<'_, '_>,
    place: Place,
    text: Box<CoreExpr>,
    name: &str,
    args: List<CoreExpr>,
) -> Result<Resolved, Unresolved>
    ensures { Gives resolved_seen result (text_called place (expr_of text.value) name.now (map expr_of args.items)) }
{
    let arg = only(args)?;
    let kept = boxed(scope.alloc, arg)?;
    text_method(place, text, name, kept)
}

// `equals` or `concat` of a text.
#[tactic(auto, using(jv_core::proofs::ViewLaws::views))]
fn text_method(
    place: Place,
    text: Box<CoreExpr>,
    name: &str,
    arg: Box<CoreExpr>,
) -> Result<Resolved, Unresolved>
    ensures { Gives resolved_seen result (text_call place (expr_of text.value) name.now (expr_of arg.value)) }
{
    match TextCall::named(name) {
        Some(TextCall::Equals) => Ok(typed(
            place,
            CoreExprKind::Equals(text, arg),
            CoreType::Boolean,
        )),
        Some(TextCall::Concat) => Ok(typed(place, CoreExprKind::Concat(text, arg), CoreType::Text)),
        None => Err(Unresolved::Fault),
    }
}

// The one argument of a call.
fn only(args: List<CoreExpr>) -> Result<CoreExpr, Unresolved>
    ensures { Gives expr_of result (only (map expr_of args.items)) }
{
    let mut args = args.into_vec();
    let Some(arg) = args.pop() else {
        return Err(Unresolved::Fault);
    };
    if args.is_empty() {
        return Ok(arg);
    }
    drop(arg);
    Err(Unresolved::Fault)
}

// A call of the session.
fn session_call(place: Place, name: &str, args: List<CoreExpr>) -> Result<Resolved, Unresolved>
    ensures { Gives resolved_seen result (session_call place name.now (map expr_of args.items)) }
{
    let Some(call) = SessionCall::named(name) else {
        return Err(Unresolved::Fault);
    };
    Ok(typed(
        place,
        CoreExprKind::Session { call, args },
        CoreType::plain(call.method().result),
    ))
}
