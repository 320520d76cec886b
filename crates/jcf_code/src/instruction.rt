//! An instruction, and what stands behind its opcode.

use jcf_effects::Effect;
use mg_text::List;

/// An int that a switch has, and the place to which it leads.
#[derive(Clone, Copy)]
pub struct Case {
    pub number: i32,
    pub target: usize,
}

/// What stands behind an opcode. Constants and locals are told by their numbers, jumps by the places to which they lead.
#[derive(Drop)]
pub enum Operand {
    Nothing,
    /// A number of one or two bytes.
    Number(i16),
    Local(u16),
    /// A local, and what is added to it.
    Increment(u16, i16),
    Constant(u16),
    /// A class, and how many dimensions an array of it gets.
    Dimensions(u16, u8),
    Jump(usize),
    /// Where all other ints lead, and where some do.
    Switch(usize, List<Case>),
}

/// An instruction: where it stands, in bytes from the code's start; the place behind it; what it does; and what stands behind its opcode.
/// One behind `wide` is the instruction that it widens.
#[derive(Drop)]
pub struct Instruction {
    pub place: usize,
    pub after: usize,
    pub effect: Effect,
    pub operand: Operand,
}
