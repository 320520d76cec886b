//! What is found by name or number in the table of a program, with its number in the core.
//! Contracts see the table as that of the trees.

ghost use Rattle.std.specs.Prelude.{◌≡◌, option_map, slice_get};
ghost use Rattle.jv_tree.specs.View.{enum_of};
ghost use Rattle.jv_resolve_law.specs.Tables.{class_called, enum_called, method_called, field_called, type_called, type_meant};
ghost use Rattle.jv_resolve.specs.inner.Gives.{Gives};
ghost use Rattle.jv_resolve.specs.inner.Seen.{entry_seen, tables_seen, callee_seen, placed_seen, numbered_seen};

use crate::given::Unresolved;
use jv_core::CoreType;
use jv_tree::{Field, MethodDecl};
use jv_types::{ClassEntry, EnumEntry, Protocol, Table};
use ts_tree::TypeName;

/// A method and its number.
#[derive(Clone, Copy)]
pub(crate) struct Callee<'a> {
    pub method: &'a MethodDecl,
    pub number: u32,
}

/// A field and its place in its class.
#[derive(Clone, Copy)]
pub(crate) struct PlacedField<'a> {
    pub field: &'a Field,
    pub place: u32,
}

/// An enum and its number.
#[derive(Clone, Copy)]
pub(crate) struct NumberedEnum<'s, 'a> {
    pub entry: &'s EnumEntry<'a>,
    pub number: u32,
}

/// The field of a name.
pub(crate) fn field_named<'a>(entry: &ClassEntry<'a>, name: &str) -> Option<PlacedField<'a>>
    ensures { option_map placed_seen result ≡ field_called (entry_seen entry.now) name.now }
{
    match entry.field_place(name) {
        None => None,
        Some(place) => match entry.class.fields.as_slice().get(place as usize) {
            None => None,
            Some(field) => Some(PlacedField { field, place }),
        },
    }
}

/// The method of a name.
pub(crate) fn method_named<'a>(entry: &ClassEntry<'a>, name: &str) -> Option<Callee<'a>>
    ensures { option_map callee_seen result ≡ method_called (entry_seen entry.now) name.now }
{
    match entry.method_place(name) {
        None => None,
        Some(place) => match entry.class.methods.as_slice().get(place as usize) {
            None => None,
            Some(method) => {
                let number = entry.first_method + place;
                Some(Callee { method, number })
            }
        },
    }
}

/// The class of a name.
pub(crate) fn class_named<'s, 'a>(table: &'s Table<'a>, name: &str) -> Option<&'s ClassEntry<'a>>
    ensures { option_map (λ e. entry_seen e.now) result ≡ class_called (tables_seen table.now) name.now }
{
    match table.class_number(name) {
        None => None,
        Some(number) => class_at(table, number),
    }
}

/// The enum of a name.
pub(crate) fn enum_named<'s, 'a>(table: &'s Table<'a>, name: &str) -> Option<NumberedEnum<'s, 'a>>
    ensures { option_map numbered_seen result ≡ enum_called (tables_seen table.now) name.now }
{
    match table.enum_number(name) {
        None => None,
        Some(number) => match table.enums().get(number as usize) {
            None => None,
            Some(entry) => Some(NumberedEnum { entry, number }),
        },
    }
}

/// The class of a number.
pub(crate) fn class_at<'s, 'a>(table: &'s Table<'a>, number: u32) -> Option<&'s ClassEntry<'a>>
    ensures { option_map (λ e. entry_seen e.now) result ≡ slice_get (tables_seen table.now).classes number }
{
    table.classes().get(number as usize)
}

/// The enum of a number.
pub(crate) fn enum_at<'s, 'a>(table: &'s Table<'a>, number: u32) -> Option<&'s EnumEntry<'a>>
    ensures { option_map (λ e. enum_of e.now.of.now) result ≡ slice_get (tables_seen table.now).enums number }
{
    table.enums().get(number as usize)
}

/// What the typestate of a number offers.
pub(crate) fn protocol_at<'s, 'a>(table: &'s Table<'a>, number: u32) -> Option<&'s Protocol<'a>>
    ensures { option_map (λ p. p.now.of.now) result ≡ slice_get (tables_seen table.now).typestates number }
{
    table.protocols().get(number as usize)
}

/// What a written type is.
pub(crate) fn meant(table: &Table<'_>, written: &TypeName) -> Result<CoreType, Unresolved>
    ensures { Gives (λ ty. ty) result (type_meant (tables_seen table.now) written.now) }
{
    match written {
        TypeName::Void => Ok(CoreType::Void),
        TypeName::Int => Ok(CoreType::Int),
        TypeName::Boolean => Ok(CoreType::Boolean),
        TypeName::Text => Ok(CoreType::Text),
        TypeName::Named(name) => type_named(table, name.as_str()),
    }
}

// The class of a name, or else the enum.
fn type_named(table: &Table<'_>, name: &str) -> Result<CoreType, Unresolved>
    ensures { Gives (λ ty. ty) result (type_called (tables_seen table.now) name.now) }
{
    if let Some(number) = table.class_number(name) {
        return Ok(CoreType::Object(number));
    }
    match table.enum_number(name) {
        Some(number) => Ok(CoreType::Enum(number)),
        None => Err(Unresolved::Fault),
    }
}
