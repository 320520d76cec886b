//! Parts of a linked program by their numbers.
//! What isn't there has no name, takes nothing and has no room.

ghost use Rattle.std.specs.Prelude.{◌≡◌, ◌<◌, ◌^◌, option_map};
ghost use Rattle.vm_model.specs.Program as model;
ghost use Rattle.vm_model.specs.Types.{signature_of};
ghost use Rattle.vm_model.specs.Descriptors.{type_view};
ghost use Rattle.vm_model.specs.Kept.{type_kept};
ghost use Rattle.vm_model.specs.View.{class_of, method_of, field_of};
ghost use Rattle.vm_model.specs.Tests.{max_stack_in, max_locals_in, descriptor_in, result_in, name_of_method};

use vm_model::{FieldType, Linked, LinkedClass, LinkedField, LinkedMethod, LinkedType};

/// The class of this number.
#[inline(always)]
pub(crate) fn class_at(linked: &Linked, class: u32) -> Option<&LinkedClass>
    ensures { option_map (λ c. class_of c.now) result ≡ model.class_at linked.now class }
{
    linked.classes().get(class as usize)
}

/// The name of the class of this number.
pub(crate) fn class_name(linked: &Linked, class: u32) -> &str
    ensures { result.now ≡ model.class_name linked.now class }
{
    match class_at(linked, class) {
        Some(class) => class.name.as_str(),
        None => "",
    }
}

/// The method of these numbers.
#[inline(always)]
pub(crate) fn method_at(linked: &Linked, class: u32, method: u32) -> Option<&LinkedMethod>
    ensures { option_map (λ m. method_of m.now) result ≡ model.method_at linked.now class method }
{
    match class_at(linked, class) {
        Some(class) => class.methods.as_slice().get(method as usize),
        None => None,
    }
}

/// The field of these numbers.
pub(crate) fn field_at(linked: &Linked, class: u32, field: u32) -> Option<&LinkedField>
    ensures { option_map (λ f. field_of f.now) result ≡ model.field_at linked.now class field }
{
    match class_at(linked, class) {
        Some(class) => class.fields.as_slice().get(field as usize),
        None => None,
    }
}

/// How many operands a method may have.
#[inline(always)]
pub(crate) fn max_stack(method: Option<&LinkedMethod>) -> usize
    ensures value { result ≡ max_stack_in (option_map (λ m. method_of m.now) method.entry) }
    ensures bound { result < 2 ^ 16 }
{
    match method {
        Some(method) => usize::from(method.max_stack),
        None => 0,
    }
}

/// How many locals a method has.
pub(crate) fn max_locals(method: Option<&LinkedMethod>) -> usize
    ensures value { result ≡ max_locals_in (option_map (λ m. method_of m.now) method.entry) }
    ensures bound { result < 2 ^ 16 }
{
    match method {
        Some(method) => usize::from(method.max_locals),
        None => 0,
    }
}

/// A kept type, lent.
#[inline(always)]
pub(crate) fn lent<'a>(kept: &'a Option<LinkedType>) -> Option<FieldType<'a>>
    ensures { option_map type_view result ≡ option_map type_kept kept.now }
{
    match kept {
        Some(kept) => Some(kept.field_type()),
        None => None,
    }
}

/// The type of what a method answers.
#[inline(always)]
pub(crate) fn result_type<'a>(method: Option<&'a LinkedMethod>) -> Option<FieldType<'a>>
    ensures { option_map type_view result ≡ result_in (signature_of (descriptor_in (option_map (λ m. method_of m.now) method.entry))) }
{
    match method {
        Some(method) => lent(&method.result),
        None => None,
    }
}

/// The name of a method.
pub(crate) fn method_name<'a>(method: Option<&'a LinkedMethod>) -> &'a str
    ensures { result.now ≡ name_of_method (option_map (λ m. method_of m.now) method.entry) }
{
    match method {
        Some(method) => method.name.as_str(),
        None => "",
    }
}
