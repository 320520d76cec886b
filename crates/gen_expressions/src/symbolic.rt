//! Instructions before they are laid out in a class file.
//! Classes, fields and methods stand in them by their numbers in the program, and jumps lead to instructions by their numbers in the code.

ghost use Rattle.std.specs.Prelude.{◌≡◌};
ghost use Rattle.jv_core.specs.Tree.{Program};
ghost use Rattle.gen_rules.specs.Symbolic.{Method};
ghost use Rattle.gen_rules.specs.Members.{session_reference};
ghost use Rattle.gen_expressions.specs.View.{built_in_of};

use jv_core::SessionCall;
use mg_text::{List, Text};
use vm_model::Built;

/// What an instruction works with.
#[derive(Drop)]
pub enum Operand<'a> {
    Nothing,
    /// A number that is pushed and fits in the instruction.
    Number(i16),
    /// An int that is a constant of its own.
    Int(i32),
    /// A text that is a constant of its own.
    Text(&'a Text),
    /// The number of a local.
    Local(u32),
    /// The number of the instruction to which a jump leads.
    Jump(u32),
    /// Where 0, 1 and so on lead, and where other numbers lead.
    Table { default: u32, targets: List<u32> },
    /// The number of a class.
    Class(u32),
    /// The number of a class, and that of its field.
    Field { class: u32, field: u32 },
    /// The number of a method.
    Method(u32),
    /// The constructor of the class of this number.
    Constructor(u32),
    /// A member of a built-in class.
    BuiltIn(Built),
}

/// An instruction: its opcode, and what it works with. A constant of its own has the opcode of `ldc`.
pub struct Symbolic<'a> {
    pub op: u8,
    pub operand: Operand<'a>,
}

// One call lets go of it, wherever a function ends.
impl Drop for Symbolic<'_> {
    fn drop(self) {
        let Symbolic { op: _, operand: _ } = self;
    }
}

/// The member that a method of `Session` is.
pub(crate) fn session_member(call: SessionCall) -> Built
    ensures { (p : Program) → built_in_of result ≡ Method (session_reference p call) }
{
    match call {
        SessionCall::Send => Built::Send,
        SessionCall::SendInt => Built::SendInt,
        SessionCall::SendBoolean => Built::SendTruth,
        SessionCall::SendString => Built::SendText,
        SessionCall::Look => Built::Look,
        SessionCall::Take => Built::Take,
        SessionCall::TakeInt => Built::TakeInt,
        SessionCall::TakeBoolean => Built::TakeTruth,
        SessionCall::TakeString => Built::TakeText,
        SessionCall::Refuse => Built::Refuse,
    }
}
