//! Types as linked programs keep them: read of a descriptor once, with the names of their classes.

ghost use Rattle.std.specs.Prelude.{◌≡◌, IfOk};
ghost use Rattle.vm_model.specs.Descriptors.{type_view};
ghost use Rattle.vm_model.specs.Kept.{kept_type, type_kept};

use crate::types::FieldType;
use mg_text::{Memory, Text};
use std::alloc::Global;

/// The type of a field, a parameter or a result.
pub enum LinkedType {
    Int,
    Truth,
    /// A class, by its name.
    Named(Text),
    /// The array of texts that `main` takes.
    Texts,
}

// One call lets go of it, wherever a function ends.
impl Drop for LinkedType {
    fn drop(self) {
        match self {
            LinkedType::Named(_) => {}
            LinkedType::Int | LinkedType::Truth | LinkedType::Texts => {}
        }
    }
}

impl LinkedType {
    /// This type, with its name copied.
    ///
    /// # Errors
    /// `Memory` only.
    pub fn of(alloc: Global, field_type: FieldType<'_>) -> Result<LinkedType, Memory>
        ensures { IfOk result (λ t. t ≡ kept_type (type_view field_type.entry)) }
    {
        match field_type {
            FieldType::Int => Ok(LinkedType::Int),
            FieldType::Truth => Ok(LinkedType::Truth),
            FieldType::Named(name) => {
                let name = Text::of(alloc, name)?;
                Ok(LinkedType::Named(name))
            }
            FieldType::Texts => Ok(LinkedType::Texts),
        }
    }

    /// This type, with its name lent.
    pub fn field_type(&self) -> FieldType<'_>
        ensures { type_view result ≡ type_kept self.now }
    {
        match self {
            LinkedType::Int => FieldType::Int,
            LinkedType::Truth => FieldType::Truth,
            LinkedType::Named(name) => FieldType::Named(name.as_str()),
            LinkedType::Texts => FieldType::Texts,
        }
    }
}
