//! Classes and enums.
//! Contracts see them as trees, with the names that have numbers by then.

ghost use Rattle.std.specs.Prelude.{◌≡◌, Some, IfOk, map, option_map, length};
ghost use Rattle.jv_tree.specs.View.{enum_of as source_enum, field_of as source_field, expr_of};
ghost use Rattle.jv_core.specs.Numbering.{numbers_from};
ghost use Rattle.jv_core.specs.View.{expr_of as core_expr, class_of, enum_of, field_of};
ghost use Rattle.jv_resolve_law.specs.Members.{all_interned, enum as enum_meant, enums as enums_meant, begins_with, field as field_meant};
ghost use Rattle.jv_resolve_law.specs.Members.{fields as fields_meant, class as class_meant, classes as classes_meant};
ghost use Rattle.jv_resolve.specs.inner.Gives.{Gives};
ghost use Rattle.jv_resolve.specs.inner.Naming.{naming};
ghost use Rattle.jv_resolve.specs.inner.Seen.{entry_seen, tables_seen};

use crate::given::Unresolved;
use crate::literals::resolve_initial;
use crate::lookup::meant;
use crate::names::{add_name, next};
use jv_core::{CoreClass, CoreEnum, CoreExpr, CoreField};
use jv_tree::{Enum, Expr, Field};
use jv_types::{ClassEntry, EnumEntry, Table};
use mg_text::{List, Memory, Name, Names, Text};
use std::alloc::Global;

// The numbers of names.
fn number_all(alloc: Global, names: &mut Names, texts: &[Text]) -> Result<List<Name>, Memory>
    ensures { IfOk result (λ l. all_interned names.old texts.now ≡ Some (naming (map (λ n. n.0) l.items) names.new)) }
{
    let mut numbers = List::new(alloc);
    for text in texts {
        let number = add_name(names, text.as_str())?;
        numbers.push(number)?;
    }
    Ok(numbers)
}

// An enum.
fn resolve_enum(alloc: Global, names: &mut Names, of: &Enum) -> Result<CoreEnum, Memory>
    ensures { IfOk result (λ e. enum_meant names.old (source_enum of.now) ≡ Some (naming (enum_of e) names.new)) }
{
    let name = add_name(names, of.name.as_str())?;
    let constants = number_all(alloc, names, of.constants.as_slice())?;
    Ok(CoreEnum { name, constants })
}

/// Enums.
pub(crate) fn resolve_enums(
    alloc: Global,
    names: &mut Names,
    entries: &[EnumEntry<'_>],
) -> Result<List<CoreEnum>, Memory>
    ensures { IfOk result (λ l. enums_meant names.old (map (λ e. source_enum e.of.now) entries.now)
        ≡ Some (naming (map enum_of l.items) names.new)) }
{
    let mut resolved = List::new(alloc);
    for entry in entries {
        let one = resolve_enum(alloc, names, entry.of)?;
        resolved.push(one)?;
    }
    Ok(resolved)
}

// What a field begins with, where it is written.
fn first_value(table: &Table<'_>, value: &Option<Expr>) -> Result<Option<CoreExpr>, Unresolved>
    ensures { Gives (option_map core_expr) result (begins_with (tables_seen table.now) (option_map expr_of value.now)) }
{
    match value {
        None => Ok(None),
        Some(value) => {
            let value = resolve_initial(table, value)?;
            Ok(Some(value))
        }
    }
}

// A field.
fn resolve_field(
    table: &Table<'_>,
    names: &mut Names,
    field: &Field,
) -> Result<CoreField, Unresolved>
    ensures { Gives (λ f. naming (field_of f) names.new) result (field_meant (tables_seen table.now) names.old (source_field field.now)) }
{
    let name = add_name(names, field.name.as_str())?;
    let ty = meant(table, &field.ty)?;
    let value = first_value(table, &field.value)?;
    Ok(CoreField { name, ty, value })
}

// Fields.
fn resolve_fields(
    alloc: Global,
    table: &Table<'_>,
    names: &mut Names,
    fields: &[Field],
) -> Result<List<CoreField>, Unresolved>
    ensures { Gives (λ l. naming (map field_of l.items) names.new) result
        (fields_meant (tables_seen table.now) names.old (map source_field fields.now)) }
{
    let mut resolved = List::new(alloc);
    for field in fields {
        let one = resolve_field(table, names, field)?;
        resolved.push(one)?;
    }
    Ok(resolved)
}

// So many numbers in rising order, from this one on.
fn rising(alloc: Global, first: u32, count: usize) -> Result<List<u32>, Memory>
    ensures { IfOk result (λ l. l.items ≡ numbers_from first count) }
{
    let mut numbers = List::new(alloc);
    for offset in 0..count {
        let number = next(first, offset)?;
        numbers.push(number)?;
    }
    Ok(numbers)
}

// The number of the typestate that a class names.
fn followed(entry: &ClassEntry<'_>) -> Option<u32>
    ensures { result ≡ (entry_seen entry.now).typestate }
{
    match entry.typestate {
        Some(named) => Some(named.number),
        None => None,
    }
}

// A class without its methods' bodies.
fn resolve_class(
    alloc: Global,
    table: &Table<'_>,
    names: &mut Names,
    entry: &ClassEntry<'_>,
) -> Result<CoreClass, Unresolved>
    ensures { Gives (λ c. naming (class_of c) names.new) result (class_meant (tables_seen table.now) names.old (entry_seen entry.now)) }
{
    let name = add_name(names, entry.class.name.as_str())?;
    let fields = resolve_fields(alloc, table, names, entry.class.fields.as_slice())?;
    let methods = rising(alloc, entry.first_method, entry.class.methods.len())?;
    Ok(CoreClass {
        place: entry.class.place,
        name,
        typestate: followed(entry),
        fields,
        methods,
    })
}

/// Classes without their methods' bodies.
pub(crate) fn resolve_classes(
    alloc: Global,
    table: &Table<'_>,
    names: &mut Names,
    entries: &[ClassEntry<'_>],
) -> Result<List<CoreClass>, Unresolved>
    ensures { Gives (λ l. naming (map class_of l.items) names.new) result
        (classes_meant (tables_seen table.now) names.old (map entry_seen entries.now)) }
{
    let mut resolved = List::new(alloc);
    for entry in entries {
        let one = resolve_class(alloc, table, names, entry)?;
        resolved.push(one)?;
    }
    Ok(resolved)
}
