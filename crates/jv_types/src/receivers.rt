//! Which methods and fields of the own class calls name, and what may stand before a call.

ghost use Rattle.std.specs.Prelude.{◌≡◌, option_map, None};
ghost use Rattle.jv_tree.specs.View.{expr_of, field_of as field_seen};
ghost use Rattle.jv_rules.specs.Scope.{field_of};
ghost use Rattle.jv_rules.specs.inner.Deciding.{is_own, is_protocol, is_helper, is_receiver, names_class};
ghost use Rattle.jv_types.specs.inner.View.{type_seen};
ghost use Rattle.jv_types.specs.inner.Calls.{receiver_misfit, field_named_by};
ghost use Rattle.jv_types.specs.inner.Judging.{at_place, variable_name};
ghost use Rattle.jv_types.specs.inner.Scopes.{scope_seen};

use crate::locals::Locals;
use crate::operands::{is_this, no_variable};
use crate::scope::Scope;
use crate::value_type::ValueType;
use crate::variable::{own_field, variable_type};
use jv_tree::{Expr, ExprKind, Field};
use mg_text::Place;

// Whether a name is that of an instance method of the own class.
fn is_own(scope: &Scope<'_, '_>, locals: &Locals<'_>, name: &str) -> bool
    ensures { result ≡ is_own (scope_seen scope.now locals.now) name.now }
{
    match scope.class.method(name) {
        Some(method) => !method.is_static,
        None => false,
    }
}

/// What a call on the own object is.
#[derive(Clone, Copy)]
pub(crate) struct OwnCall {
    /// One of a method of the own protocol.
    pub is_protocol: bool,
    /// One of a helper.
    pub is_helper: bool,
}

/// What a call of this name on the own object is. It is neither where the name is not that of an
/// instance method.
pub(crate) fn own_call(scope: &Scope<'_, '_>, locals: &Locals<'_>, name: &str) -> OwnCall
    ensures protocol { result.is_protocol ≡ is_protocol (scope_seen scope.now locals.now) name.now }
    ensures helper { result.is_helper ≡ is_helper (scope_seen scope.now locals.now) name.now }
{
    if is_own(scope, locals, name) {
        let is_protocol = scope.table.is_offered(scope.class, name);
        return OwnCall {
            is_protocol,
            is_helper: !is_protocol,
        };
    }
    OwnCall {
        is_protocol: false,
        is_helper: false,
    }
}

/// Whether a name is that of a class, `Session` included.
pub(crate) fn names_class(scope: &Scope<'_, '_>, locals: &Locals<'_>, name: &str) -> bool
    ensures { result ≡ names_class (scope_seen scope.now locals.now) name.now }
{
    name == "Session" || scope.table.class_named(name).is_some()
}

/// Whether a name is that of a variable or of a class, so that it may stand before a call.
pub(crate) fn is_receiver(scope: &Scope<'_, '_>, locals: &Locals<'_>, name: &str) -> bool
    ensures { result ≡ is_receiver (scope_seen scope.now locals.now) name.now }
{
    variable_type(scope, locals, name).is_some() || names_class(scope, locals, name)
}

/// The own field that a name is.
pub(crate) fn field_named<'a>(
    scope: &Scope<'_, 'a>,
    locals: &Locals<'a>,
    name: &str,
) -> Option<&'a Field>
    ensures { option_map (λ f. field_seen f.now) result ≡ field_named_by (scope_seen scope.now locals.now) name.now }
{
    match locals.find(name) {
        Some(_ty) => None,
        None => own_field(scope, locals, name),
    }
}

/// The own field that an expression is.
#[tactic(auto, using(crate::proofs::Seen::seen))]
pub(crate) fn field_of<'a>(
    scope: &Scope<'_, 'a>,
    locals: &Locals<'a>,
    expr: &Expr,
) -> Option<&'a Field>
    requires { variable_name (expr_of expr.now) ≡ None }
    ensures { option_map (λ f. field_seen f.now) result ≡ field_of (scope_seen scope.now locals.now) (expr_of expr.now) }
{
    match expr.kind {
        ExprKind::Member(ref of, ref name) => {
            if is_this(of) {
                return own_field(scope, locals, name.as_str());
            }
            None
        }
        ExprKind::Name(ref name) => field_named(scope, locals, name.as_str()),
        ExprKind::Int(_) | ExprKind::Truth(_) | ExprKind::Text(_) | ExprKind::Null => None,
        ExprKind::This | ExprKind::Neg(_) | ExprKind::Not(_) => None,
        ExprKind::Binary(_, _, _) | ExprKind::Call(_, _) => None,
        ExprKind::MethodCall(_, _, _) | ExprKind::New(_) => None,
    }
}

/// The place of a receiver of this type, where it has to be a variable and is none.
pub(crate) fn receiver_misfit(expr: &Expr, ty: ValueType<'_>) -> Option<Place>
    ensures { option_map at_place result ≡ receiver_misfit (type_seen ty.entry) (expr_of expr.now) }
{
    match ty {
        ValueType::Class(_) => no_variable(expr, ty),
        _ => None,
    }
}
