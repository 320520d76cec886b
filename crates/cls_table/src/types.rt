//! The kinds of the types that descriptors name.

ghost use Rattle.std.specs.Prelude.{◌≡◌, ◌++◌, map, option_map, OnOk};
ghost use Rattle.cls_verify.specs.Kinds.{Instance};
ghost use Rattle.cls_kinds.specs.Named.{kind_of, kinds_of};
ghost use Rattle.cls_table.specs.Kept.{kept_kind, named_kind};
ghost use Rattle.cls_table.specs.Known.{IsKnown, KnowsType, KnowsTypes, KnowsOption};

use crate::names::number_of;
use cls_kinds::Kind;
use mg_text::{Memory, Names};
use std::alloc::Global;
use vm_model::{LinkedType, STRING_CLASS};

/// The objects of the class of this name.
fn instance(names: &Names, name: &str) -> Kind
    requires { IsKnown names.now name.now }
    ensures { kind_of names.now result ≡ Instance name.now }
{
    Kind(number_of(names, name) + 4)
}

/// The kind of a class's name in a descriptor: `String` is that of texts.
fn named(names: &Names, name: &str) -> Kind
    requires { IsKnown names.now name.now }
    ensures { kind_of names.now result ≡ named_kind name.now }
{
    if name == STRING_CLASS {
        return Kind::TEXT;
    }
    instance(names, name)
}

/// The kind of a type. Null alone is an array.
fn kind_of_type(names: &Names, field_type: &LinkedType) -> Kind
    requires { KnowsType names.now field_type.now }
    ensures { kind_of names.now result ≡ kept_kind field_type.now }
{
    match field_type {
        LinkedType::Int | LinkedType::Truth => Kind::INT,
        LinkedType::Named(name) => named(names, name.as_str()),
        LinkedType::Texts => Kind::NULL,
    }
}

/// The kinds of types, behind those that there are.
pub(crate) fn add_kinds(
    kinds: &mut Vec<Kind>,
    names: &Names,
    types: &[LinkedType],
) -> Result<(), Memory>
    requires { KnowsTypes names.now types.now }
    ensures { OnOk result (kinds_of names.now kinds.new.items ≡ kinds_of names.now kinds.old.items ++ map kept_kind types.now) }
{
    for field_type in types {
        kinds.push(kind_of_type(names, field_type))?;
    }
    Ok(())
}

/// The kind of a type, where there is one.
pub(crate) fn kind_of_some(names: &Names, field_type: &Option<LinkedType>) -> Option<Kind>
    requires { KnowsOption names.now field_type.now }
    ensures { option_map (kind_of names.now) result ≡ option_map kept_kind field_type.now }
{
    match field_type {
        Some(field_type) => Some(kind_of_type(names, field_type)),
        None => None,
    }
}
