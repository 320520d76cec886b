//! What instructions do, as values of the program: one table of opcodes with their arguments.
//! Beside it stands what ints are computed to, and how they compare.
#![tactic(auto)]

mod action;
mod arithmetic;

pub use action::{Action, Calling, Comparison, Constant, Operation, Plain, Sort, action_of};
pub use arithmetic::{added, compares, computed, negated, switched};
