//! What is in scope under names.
#![tactic(auto)]

mod locals;

pub use locals::{Declared, Local, Locals};
