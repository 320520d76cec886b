//! Kinds by numbers, and lists of operands that share their lower parts: what the search for typings works with.
//! A kind takes four bytes, and a list of operands is one number.
#![tactic(auto)]

mod kind;
mod laws;
mod rows;
mod stacks;

pub use kind::Kind;
pub use laws::numbers_say_kinds;
pub use rows::{join_rows, raises_row};
pub use stacks::{Stacks, Top};
