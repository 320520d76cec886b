//! The code of a method of a resolved program, before it is laid out in a class file.
//! It is written once, from left to right: jumps lead to labels, and at the end each label has its place.
#![tactic(auto)]

mod aimed;
mod around;
mod frames;
mod locals_of;
mod method;
mod statements;
mod switches;

pub use gen_expressions::{Operand, Symbolic};
pub use method::{MethodCode, method_code};
