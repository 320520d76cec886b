//! The types of values, and what fits where.

ghost use Rattle.std.specs.Prelude.{◌≡◌};
ghost use Rattle.jv_rules.specs.Types.{meant};
ghost use Rattle.jv_rules.specs.Typing.{plain_type};
ghost use Rattle.jv_rules.specs.inner.Deciding.{same_type, fits};
ghost use Rattle.jv_types.specs.inner.View.{type_seen};
ghost use Rattle.jv_types.specs.Tables.{program_in};

use crate::name_table::Table;
use jv_tree::PlainType;
use ts_tree::TypeName;

/// The type of a value.
#[derive(Clone, Copy)]
pub(crate) enum ValueType<'a> {
    /// What a call of a method without a result gives.
    NoValue,
    Int,
    Boolean,
    Text,
    Enum(&'a str),
    Class(&'a str),
    Null,
}

/// The type that a written one means.
pub(crate) fn meant<'a>(table: &Table<'_>, written: &'a TypeName) -> ValueType<'a>
    ensures { type_seen result ≡ meant (program_in table.now) written.now }
{
    match written {
        TypeName::Void => ValueType::NoValue,
        TypeName::Int => ValueType::Int,
        TypeName::Boolean => ValueType::Boolean,
        TypeName::Text => ValueType::Text,
        TypeName::Named(name) => match table.class_named(name.as_str()) {
            Some(_class) => ValueType::Class(name.as_str()),
            None => ValueType::Enum(name.as_str()),
        },
    }
}

/// The type that a plain one is.
pub(crate) fn plain_type<'a>(plain: PlainType) -> ValueType<'a>
    ensures { type_seen result ≡ plain_type plain }
{
    match plain {
        PlainType::Void => ValueType::NoValue,
        PlainType::Int => ValueType::Int,
        PlainType::Boolean => ValueType::Boolean,
        PlainType::Text => ValueType::Text,
    }
}

/// Whether two types are the same.
pub(crate) fn same_type(one: ValueType<'_>, other: ValueType<'_>) -> bool
    ensures { result ≡ same_type (type_seen one.entry) (type_seen other.entry) }
{
    match one {
        ValueType::NoValue => matches!(other, ValueType::NoValue),
        ValueType::Int => matches!(other, ValueType::Int),
        ValueType::Boolean => matches!(other, ValueType::Boolean),
        ValueType::Text => matches!(other, ValueType::Text),
        ValueType::Enum(name) => match other {
            ValueType::Enum(another) => name == another,
            _ => false,
        },
        ValueType::Class(name) => match other {
            ValueType::Class(another) => name == another,
            _ => false,
        },
        ValueType::Null => matches!(other, ValueType::Null),
    }
}

/// Whether a value fits: the types are equal, or `null` is given for a class.
pub(crate) fn fits(taken: ValueType<'_>, given: ValueType<'_>) -> bool
    ensures { result ≡ fits (type_seen taken.entry) (type_seen given.entry) }
{
    match taken {
        ValueType::Class(_) => match given {
            ValueType::Null => true,
            _ => same_type(taken, given),
        },
        _ => same_type(taken, given),
    }
}
