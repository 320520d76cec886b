//! Class files as trees, the opcodes of their code, and how each is laid out as bytes.
//! What a class must meet to be well formed is a definition here.
#![tactic(auto)]

mod class;
mod instr;
pub mod opcodes;

pub use class::{Attr, Class, Code, Const, Member};
pub use instr::{Args, Form, Instr, form_of};
