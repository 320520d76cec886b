//! The names of a program's classes.

ghost use Rattle.std.specs.Prelude.{◌≡◌};
ghost use Rattle.gen_rules.specs.Members.{class_name};

use jv_core::{Core, name_text};

/// The name of the class of a number; empty where there is no such class.
#[tactic(auto, using(crate::proofs::Found::found))]
pub(crate) fn class_name(core: &Core, class: u32) -> &str
    ensures { result.now ≡ class_name core.now class }
{
    match core.classes().get(class as usize) {
        Some(class) => name_text(core, class.name),
        None => "",
    }
}
