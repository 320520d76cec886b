//! The `main` of a class, by the class's name, and the first role that has none.

ghost use Rattle.std.specs.Prelude.{◌≡◌, ◌≢◌, ◌↔◌, ◌&&◌, IsTrue, None, nat_eq};
ghost use Rattle.std.specs.List.{position, list_any};
ghost use Rattle.std.specs.Str.{bytes_eq};
ghost use Rattle.jv_core.specs.Lookup.{class_numbered, is_main, text_at};
ghost use Rattle.jv_core.specs.Meaning.{main_in, main_of};
ghost use Rattle.jv_core.specs.View.{class_of, method_of};
ghost use Rattle.mg_runs.specs.Mains.{IsFirstWithout};

use jv_core::{Core, CoreClass, CoreMethod, MethodKind, name_text};
use vm_world::RoleMain;

/// The number of the first role whose class has no `main`.
pub fn first_without(core: &Core, mains: &[RoleMain]) -> Option<usize>
    ensures { IsFirstWithout core.now mains.now result }
{
    for number in 0..mains.len() {
        if !has_main(core, mains[number].class.as_str()) {
            return Some(number);
        }
    }
    None
}

// Whether the class of this name has a `main`.
fn has_main(core: &Core, class: &str) -> bool
    ensures { IsTrue result ↔ (main_of core.now class.now ≢ None) }
{
    match class_named(core, class) {
        Some(number) => has_main_in(core, number),
        None => false,
    }
}

// The number of the first class of this name.
fn class_named(core: &Core, name: &str) -> Option<usize>
    ensures { result ≡ class_numbered core.now name.now }
{
    class_place(core, core.classes(), name)
}

// The place of the first class of this name.
fn class_place(core: &Core, classes: &[CoreClass], name: &str) -> Option<usize>
    ensures { result ≡ position (λ c. bytes_eq (text_at core.now (class_of c).name) name.now) classes.now }
{
    classes
        .iter()
        .position(|own| name_text(core, own.name) == name)
}

// Whether the class of this number has a `main`.
fn has_main_in(core: &Core, class: usize) -> bool
    ensures { IsTrue result ↔ (main_in core.now class 0 core.now.methods ≢ None) }
{
    some_main(core.methods(), class)
}

// Whether some method is a `main` of the class of this number.
fn some_main(methods: &[CoreMethod], class: usize) -> bool
    ensures { result ≡ list_any (λ m. nat_eq (method_of m).class class && is_main (method_of m).kind) methods.now }
{
    methods.iter().any(|method| method.class as usize == class && is_main(method.kind))
}

// Whether methods of this kind are a `main`.
fn is_main(kind: MethodKind) -> bool
    ensures { result ≡ is_main kind }
{
    matches!(kind, MethodKind::Main)
}
