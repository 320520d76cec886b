//! The code of a method of any class file (JVMS chapter 6): how many bytes each instruction takes, where instructions begin,
//! and what each does, with what.
#![tactic(auto)]

mod bytes;
mod fault;
mod instruction;
mod instructions;
mod layout;
mod marks;

pub use bytes::{byte_of, tail, u2_in, u4_in};
pub use fault::CodeFault;
pub use instruction::{Case, Instruction, Operand};
pub use instructions::instructions_of;
pub use layout::{laid_out, pad, table_length};
pub use marks::marks_of;
