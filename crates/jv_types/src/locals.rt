//! The parameters and locals in scope, each with its type.

use crate::value_type::ValueType;

/// The parameters and locals in scope, each with its type.
pub(crate) type Locals<'a> = jv_scope::Locals<'a, ValueType<'a>>;
