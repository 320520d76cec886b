//! What names of variables name at a place.

ghost use Rattle.std.specs.Prelude.{◌≡◌, option_map};
ghost use Rattle.jv_tree.specs.View.{field_of as field_seen};
ghost use Rattle.jv_rules.specs.Scope.{own_field, field_type, variable_type};
ghost use Rattle.jv_types.specs.inner.View.{type_seen};
ghost use Rattle.jv_types.specs.inner.Scopes.{scope_seen};

use crate::locals::Locals;
use crate::scope::Scope;
use crate::value_type::{ValueType, meant};
use jv_tree::Field;

/// The own field of a name, which is visible in instance methods alone.
pub(crate) fn own_field<'a>(
    scope: &Scope<'_, 'a>,
    locals: &Locals<'a>,
    name: &str,
) -> Option<&'a Field>
    ensures { option_map (λ f. field_seen f.now) result ≡ own_field (scope_seen scope.now locals.now) name.now }
{
    if scope.method.is_static {
        return None;
    }
    scope.class.field(name)
}

/// The type of an own field.
pub(crate) fn field_type<'a>(
    scope: &Scope<'_, 'a>,
    locals: &Locals<'a>,
    name: &str,
) -> Option<ValueType<'a>>
    ensures { option_map type_seen result ≡ field_type (scope_seen scope.now locals.now) name.now }
{
    match own_field(scope, locals, name) {
        Some(field) => Some(meant(scope.table, &field.ty)),
        None => None,
    }
}

/// The type of a variable: a local or a parameter, else an own field.
pub(crate) fn variable_type<'a>(
    scope: &Scope<'_, 'a>,
    locals: &Locals<'a>,
    name: &str,
) -> Option<ValueType<'a>>
    ensures { option_map type_seen result ≡ variable_type (scope_seen scope.now locals.now) name.now }
{
    match locals.find(name) {
        Some(ty) => Some(ty),
        None => field_type(scope, locals, name),
    }
}
