//! A resolved program as a whole, which keeps its conditions by its type.
//! Contracts see it as the tree of its parts.

ghost use Rattle.std.specs.Prelude.{◌≡◌, map};
ghost use Rattle.jv_core.specs.View.{class_of, enum_of, method_of, program_of};
ghost use Rattle.jv_core.specs.Conditions.{IsCore};

use crate::{CoreClass, CoreEnum, CoreMethod};
use mg_text::{List, Names};
use std::marker::Model;
use ts_tree::Typestate;

/// A resolved program: each number in it is in range, it is well typed, and it is numbered in the
/// order of its text.
///
/// The methods of a class are those whose `class` it is, in rising order. An instance method has
/// the kind `Protocol` exactly where the typestate of its class names it. The first slots of a
/// method are its parameters; each other slot is declared once and each loop stands once, both in
/// the order of the text. The scope of a loop has the slots in scope where it begins.
pub struct Core {
    classes: List<CoreClass>,
    enums: List<CoreEnum>,
    methods: List<CoreMethod>,
    typestates: List<Typestate>,
    names: Names,
}

// One call lets go of it, wherever a function ends.
impl Drop for Core {
    fn drop(self) {
        let Core {
            classes: _,
            enums: _,
            methods: _,
            typestates: _,
            names: _,
        } = self;
    }
}

impl Model for Core {
    ghost use Rattle.jv_core.specs.Tree.{Program};
    ghost use Rattle.jv_core.specs.Stored.{program_code};

    ghost Value = { Program };

    ghost coded = { program_code };

    ghost use Rattle.jv_core.specs.View.{program_of};
    ghost use Rattle.jv_core.specs.Conditions.{IsCore};

    ghost view = { λ c. program_of c.classes.items c.enums.items c.methods.items c.typestates.items c.names };

    ghost invariant = { λ c. ∥ IsCore (program_of c.classes.items c.enums.items c.methods.items c.typestates.items c.names) ∥₁ };
}

impl Core {
    /// The program of these parts. They are in range, well typed, and numbered in the order of
    /// the text; an enum has at most 2^31 constants, and the slots of a method and the fields of
    /// its class are together at most 2^32 - 1.
    pub fn new(
        classes: List<CoreClass>,
        enums: List<CoreEnum>,
        methods: List<CoreMethod>,
        typestates: List<Typestate>,
        names: Names,
    ) -> Core
        requires { ∥ IsCore (program_of classes.items enums.items methods.items typestates.items names) ∥₁ }
        ensures { result ≡ program_of classes.items enums.items methods.items typestates.items names }
    {
        Core {
            classes,
            enums,
            methods,
            typestates,
            names,
        }
    }

    /// The classes, by their numbers.
    pub fn classes(&self) -> &[CoreClass]
        ensures { map class_of result.now ≡ self.now.classes }
    {
        self.classes.as_slice()
    }

    /// The enums, by their numbers.
    pub fn enums(&self) -> &[CoreEnum]
        ensures { map enum_of result.now ≡ self.now.enums }
    {
        self.enums.as_slice()
    }

    /// The methods, by their numbers.
    pub fn methods(&self) -> &[CoreMethod]
        ensures all { map method_of result.now ≡ self.now.methods }
        ensures core { ∥ IsCore self.now ∥₁ }
    {
        self.methods.as_slice()
    }

    /// The typestates, by their numbers.
    pub fn typestates(&self) -> &[Typestate]
        ensures { result.now ≡ self.now.typestates }
    {
        self.typestates.as_slice()
    }

    /// The names, by their numbers.
    pub fn names(&self) -> &Names
        ensures { result.now ≡ self.now.names }
    {
        &self.names
    }
}
