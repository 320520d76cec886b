//! A whole linked program, which contracts see as its classes.
//! What its instructions name is there.

ghost use Rattle.std.specs.Prelude.{◌≡◌, ◌<◌, ◌^◌, length};
ghost use Rattle.vm_model.specs.View.{classes_of};
ghost use Rattle.vm_model.specs.Linked.{IsLinked};

use crate::LinkedClass;
use mg_text::List;
use std::marker::Model;

/// A program whose references are looked up: classes by their numbers, with their fields and methods.
///
/// Each instruction has the arguments of its opcode (JVMS chapter 6), each number of an instruction,
/// a class, a field or a method in them is in range, and each descriptor is that of a field or a
/// method whose classes are built-in ones or classes of the program (JVMS 4.3).
pub struct Linked {
    classes: List<LinkedClass>,
}

// One call lets go of it, wherever a function ends.
impl Drop for Linked {
    fn drop(self) {
        let Linked { classes: _ } = self;
    }
}

impl Model for Linked {
    ghost use Rattle.vm_model.specs.Program.{Program};

    ghost Value = { Program };

    ghost use Rattle.vm_model.specs.View.{classes_of};
    ghost use Rattle.vm_model.specs.Linked.{IsLinked};

    ghost view = { λ l. classes_of l.classes.items };

    ghost invariant = { λ l. IsLinked (classes_of l.classes.items) };
}

impl Linked {
    /// The program of these classes.
    pub fn new(classes: List<LinkedClass>) -> Linked
        requires { IsLinked (classes_of classes.items) }
        ensures { result ≡ classes_of classes.items }
    {
        Linked { classes }
    }

    /// The classes, by their numbers, each of which fits a `u32`.
    #[inline(always)]
    pub fn classes(&self) -> &[LinkedClass]
        ensures classes { classes_of result.now ≡ self.now }
        ensures linked { IsLinked self.now }
        ensures bound { length result.now < 2 ^ 32 }
    {
        self.classes.as_slice()
    }
}
