//! The first fault of a file of a global protocol that is a tree: of the conditions that don't hold
//! the one of the lowest number, at its first place in the text.
//! What it shares with local protocols is judged by their code, over an outline.
#![tactic(auto)]

mod fault;
mod laws;
mod outline;
mod roles;

pub use fault::first_fault;
pub use laws::{faultless_is_valid, one_fault};
