//! The frames, objects and texts of a machine, in one region.
//! Contracts see the machine that they are, and the texts that its cells number.
#![tactic(auto)]

mod calls;
mod cell;
mod cells;
mod heap;
mod notes;
mod state;
mod texts;

pub use calls::{Callee, Waiting};
pub use cell::Cell;
pub use state::{MOST, State};
