//! The initialisers of fields: whether each is a constant of the field's type, and whether one is
//! wanted where there is none.

ghost use Rattle.std.specs.Prelude.{◌≡◌, map, option_map};
ghost use Rattle.jv_tree.specs.View.{expr_of, field_of as field_seen};
ghost use Rattle.jv_meaning.specs.Program.{enum_named};
ghost use Rattle.jv_rules.specs.inner.Deciding.{first_by, has_constant};
ghost use Rattle.jv_types.specs.Tables.{program_in};
ghost use Rattle.jv_types.specs.inner.Blaming.{blamed_of};
ghost use Rattle.jv_types.specs.inner.Declaring.{is_constant_of, lacks_constant, field_needs_value, fields_need_values};
ghost use Rattle.jv_types.specs.inner.Declaring.{is_member_of, is_constant_named, is_int, is_truth, is_text};
ghost use Rattle.jv_types.specs.inner.Tabled.{class_in};

use crate::blame::Blamed;
use crate::entry::ClassEntry;
use crate::name_table::Table;
use jv_tree::{Expr, ExprKind, Field};
use mg_text::Text;
use ts_tree::TypeName;

/// Whether the enum of a name has a constant.
pub(crate) fn has_constant(table: &Table<'_>, of: &str, name: &str) -> bool
    ensures { result ≡ has_constant (enum_named (program_in table.now).files of.now) name.now }
{
    match table.enum_named(of) {
        Some(entry) => entry.has_constant(name),
        None => false,
    }
}

// Whether `expr.constant` is a constant of the enum of this name.
#[tactic(auto, using(crate::proofs::Seen::seen))]
fn is_member_of(table: &Table<'_>, name: &str, expr: &Expr, constant: &str) -> bool
    ensures { result ≡ is_member_of (program_in table.now) name.now (expr_of expr.now) constant.now }
{
    match expr.kind {
        ExprKind::Name(ref of) => {
            if of.as_str() != name {
                return false;
            }
            has_constant(table, name, constant)
        }
        ExprKind::Int(_) | ExprKind::Truth(_) | ExprKind::Text(_) | ExprKind::Null => false,
        ExprKind::This | ExprKind::Member(_, _) | ExprKind::Neg(_) | ExprKind::Not(_) => false,
        ExprKind::Binary(_, _, _) | ExprKind::Call(_, _) => false,
        ExprKind::MethodCall(_, _, _) | ExprKind::New(_) => false,
    }
}

// Whether an expression is a constant of the type of this name.
#[tactic(auto, using(crate::proofs::Seen::seen))]
fn is_constant_named(table: &Table<'_>, name: &Text, expr: &Expr) -> bool
    ensures { result ≡ is_constant_named (program_in table.now) name.now (expr_of expr.now) }
{
    match expr.kind {
        ExprKind::Null => table.class_named(name.as_str()).is_some(),
        ExprKind::Member(ref of, ref constant) => {
            is_member_of(table, name.as_str(), of, constant.as_str())
        }
        ExprKind::Int(_) | ExprKind::Truth(_) | ExprKind::Text(_) | ExprKind::Name(_) => false,
        ExprKind::This | ExprKind::Neg(_) | ExprKind::Not(_) => false,
        ExprKind::Binary(_, _, _) | ExprKind::Call(_, _) => false,
        ExprKind::MethodCall(_, _, _) | ExprKind::New(_) => false,
    }
}

// Whether an expression is a number that is written.
#[tactic(auto, using(crate::proofs::Seen::seen))]
fn is_int(expr: &Expr) -> bool
    ensures { result ≡ is_int (expr_of expr.now) }
{
    match expr.kind {
        ExprKind::Int(_) => true,
        ExprKind::Truth(_) | ExprKind::Text(_) | ExprKind::Null => false,
        ExprKind::Name(_) | ExprKind::This | ExprKind::Member(_, _) => false,
        ExprKind::Neg(_) | ExprKind::Not(_) | ExprKind::Binary(_, _, _) => false,
        ExprKind::Call(_, _) | ExprKind::MethodCall(_, _, _) | ExprKind::New(_) => false,
    }
}

// Whether an expression is a truth value that is written.
#[tactic(auto, using(crate::proofs::Seen::seen))]
fn is_truth(expr: &Expr) -> bool
    ensures { result ≡ is_truth (expr_of expr.now) }
{
    match expr.kind {
        ExprKind::Truth(_) => true,
        ExprKind::Int(_) | ExprKind::Text(_) | ExprKind::Null => false,
        ExprKind::Name(_) | ExprKind::This | ExprKind::Member(_, _) => false,
        ExprKind::Neg(_) | ExprKind::Not(_) | ExprKind::Binary(_, _, _) => false,
        ExprKind::Call(_, _) | ExprKind::MethodCall(_, _, _) | ExprKind::New(_) => false,
    }
}

// Whether an expression is a text that is written.
#[tactic(auto, using(crate::proofs::Seen::seen))]
fn is_text(expr: &Expr) -> bool
    ensures { result ≡ is_text (expr_of expr.now) }
{
    match expr.kind {
        ExprKind::Text(_) => true,
        ExprKind::Int(_) | ExprKind::Truth(_) | ExprKind::Null => false,
        ExprKind::Name(_) | ExprKind::This | ExprKind::Member(_, _) => false,
        ExprKind::Neg(_) | ExprKind::Not(_) | ExprKind::Binary(_, _, _) => false,
        ExprKind::Call(_, _) | ExprKind::MethodCall(_, _, _) | ExprKind::New(_) => false,
    }
}

// Whether an expression is a constant of a type.
fn is_constant_of(table: &Table<'_>, ty: &TypeName, expr: &Expr) -> bool
    ensures { result ≡ is_constant_of (program_in table.now) ty.now (expr_of expr.now) }
{
    match ty {
        TypeName::Void => false,
        TypeName::Int => is_int(expr),
        TypeName::Boolean => is_truth(expr),
        TypeName::Text => is_text(expr),
        TypeName::Named(name) => is_constant_named(table, name, expr),
    }
}

// Whether a field lacks a constant of its type. Without a value it does where its type has no default
// value.
fn lacks_constant(table: &Table<'_>, ty: &TypeName, value: &Option<Expr>) -> bool
    ensures { result ≡ lacks_constant (program_in table.now) ty.now (option_map expr_of value.now) }
{
    match value {
        None => match ty {
            TypeName::Void | TypeName::Int | TypeName::Boolean => false,
            TypeName::Text => true,
            TypeName::Named(name) => table.enum_named(name.as_str()).is_some(),
        },
        Some(expr) => !is_constant_of(table, ty, expr),
    }
}

// The first field of a class that lacks a constant of its type.
fn fields_need_values<'a>(table: &Table<'_>, fields: &'a [Field]) -> Option<Blamed<'a>>
    ensures { option_map blamed_of result ≡ first_by (field_needs_value (program_in table.now)) (map field_seen fields.now) }
{
    for item in fields {
        if lacks_constant(table, &item.ty, &item.value) {
            let place = item.place;
            let name = item.name.as_str();
            return Some(Blamed { place, name });
        }
    }
    None
}

/// The first field that lacks a constant of its type.
pub(crate) fn field_needs_value<'a>(
    table: &Table<'_>,
    entries: &[ClassEntry<'a>],
) -> Option<Blamed<'a>>
    ensures { option_map blamed_of result ≡ first_by (fields_need_values (program_in table.now)) (map class_in entries.now) }
{
    for item in entries {
        let found = fields_need_values(table, item.class.fields.as_slice());
        if found.is_some() {
            return found;
        }
    }
    None
}
