//! Classes and enums with what they declare in tables by name.

ghost use Rattle.std.specs.Prelude.{◌≡◌, ◌+◌, ◌≤◌, ◌-◌, ◌^◌, [], Some, true, map, option_map, position, length};
ghost use Rattle.std.specs.List.{list_any};
ghost use Rattle.std.specs.Str.{bytes_eq};
ghost use Rattle.jv_tree.specs.View.{class_of, enum_of, field_of, method_of};
ghost use Rattle.jv_meaning.specs.Program.{field_named, method_named};
ghost use Rattle.jv_rules.specs.inner.Deciding.{has_constant};
ghost use Rattle.jv_types.specs.inner.Blaming.{are_new};

use crate::naming::place_of;
use jv_tree::{Class, Enum, Field, MethodDecl};
use mg_text::Names;
use ts_tree::Typestate;

/// The typestate that a class names, and its number.
#[derive(Clone, Copy)]
pub struct NamedTypestate<'a> {
    pub number: u32,
    pub typestate: &'a Typestate,
}

/// A class, its number and that of its first method, its typestate, and the names of its fields and
/// of its methods. Classes are numbered in file and text order, and so are the methods of all.
pub struct ClassEntry<'a> {
    pub class: &'a Class,
    pub number: u32,
    pub first_method: u32,
    pub typestate: Option<NamedTypestate<'a>>,
    pub(crate) fields: Names,
    pub(crate) methods: Names,
    ghost named_fields: { fields ≡ map (λ f. f.name) class.now.fields.items },
    ghost named_methods: { methods ≡ map (λ m. m.name) class.now.methods.items },
    ghost methods_apart: { are_new [] (map (λ m. m.name) class.now.methods.items) ≡ true },
    ghost fits: { first_method + length class.now.methods.items ≤ 2 ^ 32 - 1 },
}

// One call lets go of it.
impl Drop for ClassEntry<'_> {
    fn drop(self) {
        let ClassEntry {
            class: _,
            number: _,
            first_method: _,
            typestate: _,
            fields: _,
            methods: _,
        } = self;
    }
}

/// An enum and the names of its constants.
pub struct EnumEntry<'a> {
    pub of: &'a Enum,
    pub(crate) constants: Names,
    ghost named: { constants ≡ of.now.constants.items },
}

// One call lets go of it.
impl Drop for EnumEntry<'_> {
    fn drop(self) {
        let EnumEntry {
            of: _,
            constants: _,
        } = self;
    }
}

impl<'a> ClassEntry<'a> {
    /// The field of a name.
    #[tactic(auto, using(crate::proofs::Finding::found))]
    pub fn field(&self, name: &str) -> Option<&'a Field>
        ensures { option_map (λ f. field_of f.now) result ≡ field_named (class_of self.now.class.now) name.now }
    {
        match self.fields.find(name) {
            Some(number) => Some(&self.class.fields.as_slice()[number.0 as usize]),
            None => None,
        }
    }

    /// The method of a name.
    #[tactic(auto, using(crate::proofs::Finding::found))]
    pub fn method(&self, name: &str) -> Option<&'a MethodDecl>
        ensures { option_map (λ m. method_of m.now) result ≡ method_named (class_of self.now.class.now) name.now }
    {
        match self.methods.find(name) {
            Some(number) => Some(&self.class.methods.as_slice()[number.0 as usize]),
            None => None,
        }
    }

    /// The place of the field of a name among the fields.
    pub fn field_place(&self, name: &str) -> Option<u32>
        ensures { result ≡ position (bytes_eq name.now) (map (λ f. f.name) self.now.class.now.fields.items) }
    {
        place_of(&self.fields, name)
    }

    /// The place of the method of a name among the methods.
    pub fn method_place(&self, name: &str) -> Option<u32>
        ensures { result ≡ position (bytes_eq name.now) (map (λ m. m.name) self.now.class.now.methods.items) }
    {
        place_of(&self.methods, name)
    }
}

impl<'a> EnumEntry<'a> {
    /// Whether it has a constant.
    #[tactic(auto, using(crate::proofs::Finding::found))]
    pub fn has_constant(&self, name: &str) -> bool
        ensures { result ≡ has_constant (Some (enum_of self.now.of.now)) name.now }
    {
        self.constants.find(name).is_some()
    }

    /// The place of the constant of a name.
    pub fn constant_place(&self, name: &str) -> Option<u32>
        ensures { result ≡ position (bytes_eq name.now) self.now.of.now.constants.items }
    {
        place_of(&self.constants, name)
    }
}
