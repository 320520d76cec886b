//! What judging answers: that something is wrong, or the type of an expression.

use crate::value_type::ValueType;
use jv_rules::Condition;
use mg_text::{Memory, Place};

/// Why judging ends.
#[derive(Clone, Copy)]
pub(crate) enum Wrong<'a> {
    /// Want of memory.
    Memory,
    /// A condition is at fault, where, and with which name.
    Fault(Condition, Place, &'a str),
}

impl<'a> From<Memory> for Wrong<'a> {
    ghost use Rattle.std.specs.Prelude.{◌≡◌};
    ghost use Rattle.jv_types.specs.declared.judged.Wrong.TheVariants as wrongs;

    ghost from_gives = { λ _ e. e ≡ wrongs.Memory };

    fn from(_memory: Memory) -> Wrong<'a> {
        Wrong::Memory
    }
}

/// An expression in which nothing is wrong: its type, and whether a helper is called in it.
#[derive(Clone, Copy)]
pub(crate) struct Checked<'a> {
    pub ty: ValueType<'a>,
    pub helper: bool,
}
