//! The bounds of cores, past which the answer is `Memory`.
//! Contracts see the parts of a core as trees.

ghost use Rattle.std.specs.Prelude.{◌≡◌, ◌≤◌, ◌+◌, ◌-◌, ◌^◌, Some, OnOk, map, length, slice_get, option_map};
ghost use Rattle.std.specs.List.{AllByRecursion};
ghost use Rattle.jv_core.specs.View.{class_of, enum_of, method_of};
ghost use Rattle.jv_core.specs.Tree as core;

use jv_core::{CoreClass, CoreEnum, CoreMethod};
use mg_text::Memory;

// An enum has at most so many constants.
const MOST_CONSTANTS: usize = 0x8000_0000;

// A method's slots and the fields of its class are together at most so many.
const MOST_VARIABLES: usize = 0xffff_ffff;

// Each enum has few enough constants.
fn bound_enum(of: &CoreEnum) -> Result<(), Memory>
    ensures { OnOk result (length (enum_of of.now).constants ≤ 2 ^ 31) }
{
    if of.constants.len() > MOST_CONSTANTS {
        return Err(Memory);
    }
    Ok(())
}

/// Each enum has few enough constants.
pub(crate) fn bound_enums(enums: &[CoreEnum]) -> Result<(), Memory>
    ensures { OnOk result (AllByRecursion (λ e. length e.constants ≤ 2 ^ 31) (map enum_of enums.now)) }
{
    for of in enums {
        bound_enum(of)?;
    }
    Ok(())
}

// The class of a number.
fn class_at(classes: &[CoreClass], number: u32) -> Option<&CoreClass>
    ensures { option_map (λ c. class_of c.now) result ≡ slice_get (map class_of classes.now) number }
{
    classes.get(number as usize)
}

// A method's slots and the fields of its class are few enough.
fn bound_method(classes: &[CoreClass], method: &CoreMethod) -> Result<(), Memory>
    ensures { OnOk result ((k : core.Class) → slice_get (map class_of classes.now) method.now.class ≡ Some k →
        length (method_of method.now).slots + length k.fields ≤ 2 ^ 32 - 1) }
{
    match class_at(classes, method.class) {
        None => Ok(()),
        Some(class) => bound_variables(class, method),
    }
}

// A method's slots and the fields of a class are few enough.
fn bound_variables(class: &CoreClass, method: &CoreMethod) -> Result<(), Memory>
    ensures { OnOk result (length (method_of method.now).slots + length (class_of class.now).fields ≤ 2 ^ 32 - 1) }
{
    if method.slots.len() > MOST_VARIABLES - class.fields.len() {
        return Err(Memory);
    }
    Ok(())
}

/// Each method's slots and the fields of its class are few enough.
pub(crate) fn bound_methods(classes: &[CoreClass], methods: &[CoreMethod]) -> Result<(), Memory>
    ensures { OnOk result (AllByRecursion (λ m. (k : core.Class) → slice_get (map class_of classes.now) m.class ≡ Some k →
        length m.slots + length k.fields ≤ 2 ^ 32 - 1) (map method_of methods.now)) }
{
    for method in methods {
        bound_method(classes, method)?;
    }
    Ok(())
}
