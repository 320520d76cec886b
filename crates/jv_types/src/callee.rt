//! Which method a call names, where it stands.

ghost use Rattle.std.specs.Prelude.{◌≡◌, option_map, Some, None};
ghost use Rattle.jv_tree.specs.View.{method_of};
ghost use Rattle.jv_rules.specs.Typing.{own_instance, own_method, static_of, protocol_method, called, called_on_this, called_on_class};
ghost use Rattle.jv_rules.specs.Typing.{called_on_value};
ghost use Rattle.jv_types.specs.inner.View.{type_seen};
ghost use Rattle.jv_types.specs.inner.Signatures.{signature_seen};
ghost use Rattle.jv_types.specs.inner.Scopes.{scope_seen, program_seen};
ghost use Rattle.jv_types.specs.inner.Tabled.{class_in, IsEntryOf};
ghost use Rattle.jv_types.specs.Tables.{program_in};

use crate::entry::ClassEntry;
use crate::locals::Locals;
use crate::name_table::Table;
use crate::scope::Scope;
use crate::signature::{Signature, session_method, signature_of, text_method};
use crate::value_type::ValueType;
use jv_tree::MethodDecl;

/// A static method, unless it is `main` with its texts.
fn static_of<'a>(table: &Table<'_>, method: &'a MethodDecl) -> Option<Signature<'a>>
    ensures { option_map (signature_seen (program_in table.now)) result ≡ static_of (program_in table.now) (method_of method.now) }
{
    if !method.is_static {
        return None;
    }
    if method.takes_args {
        return None;
    }
    Some(signature_of(table, method))
}

/// A method of the object itself.
fn own_instance<'a>(
    scope: &Scope<'_, 'a>,
    locals: &Locals<'a>,
    method: &'a MethodDecl,
) -> Option<Signature<'a>>
    ensures { option_map (signature_seen (program_seen scope.now)) result ≡ own_instance (scope_seen scope.now locals.now)
        (method_of method.now) }
{
    if method.is_static {
        return None;
    }
    if scope.table.is_offered(scope.class, method.name.as_str()) {
        return Some(signature_of(scope.table, method));
    }
    if scope.method.is_static {
        return None;
    }
    Some(signature_of(scope.table, method))
}

/// What `name(..)` takes and gives.
pub(crate) fn called<'a>(
    scope: &Scope<'_, 'a>,
    locals: &Locals<'a>,
    name: &str,
) -> Option<Signature<'a>>
    ensures { option_map (signature_seen (program_seen scope.now)) result ≡ called (scope_seen scope.now locals.now) name.now }
{
    let method = scope.class.method(name)?;
    if method.is_static {
        static_of(scope.table, method)
    } else {
        own_instance(scope, locals, method)
    }
}

/// What `this.name(..)` takes and gives.
pub(crate) fn called_on_this<'a>(
    scope: &Scope<'_, 'a>,
    locals: &Locals<'a>,
    name: &str,
) -> Option<Signature<'a>>
    ensures { option_map (signature_seen (program_seen scope.now)) result ≡ called_on_this (scope_seen scope.now locals.now) name.now }
{
    let method = scope.class.method(name)?;
    own_instance(scope, locals, method)
}

/// What `C.name(..)` takes and gives.
pub(crate) fn called_on_class<'a>(
    table: &Table<'a>,
    class: &str,
    name: &str,
) -> Option<Signature<'a>>
    ensures { option_map (signature_seen (program_in table.now)) result ≡ called_on_class (program_in table.now) class.now name.now }
{
    if class == "Session" {
        return session_method(name);
    }
    let entry = table.class_named(class)?;
    let method = entry.method(name)?;
    static_of(table, method)
}

// What a call of a protocol's method takes and gives.
fn protocol_method<'a>(
    table: &Table<'a>,
    entry: &ClassEntry<'a>,
    name: &str,
) -> Option<Signature<'a>>
    requires { IsEntryOf (program_in table.now) entry.now }
    ensures { option_map (signature_seen (program_in table.now)) result ≡ protocol_method (program_in table.now)
        (class_in entry.now) name.now }
{
    let method = entry.method(name)?;
    if method.is_static {
        return None;
    }
    if !table.is_offered(entry, name) {
        return None;
    }
    Some(signature_of(table, method))
}

/// What a call on a value of this type takes and gives.
pub(crate) fn called_on_value<'a>(
    table: &Table<'a>,
    ty: ValueType<'_>,
    name: &str,
) -> Option<Signature<'a>>
    ensures { option_map (signature_seen (program_in table.now)) result ≡ called_on_value (program_in table.now)
        (type_seen ty.entry) name.now }
{
    match ty {
        ValueType::Text => text_method(name),
        ValueType::Class(class) => {
            let entry = table.class_named(class)?;
            protocol_method(table, entry, name)
        }
        _ => None,
    }
}
