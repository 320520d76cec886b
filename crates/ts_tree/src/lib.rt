//! Typestates: finite automata whose states offer methods, and what a call leads to.
//! Contracts see a typestate as its name and its states, with no trace of how it is kept.
#![tactic(auto)]

mod copies;
mod led;
mod parts;
mod typestate;
mod walk;

pub use parts::{Branch, Method, State, Target, To, TypeName};
pub use typestate::Typestate;
