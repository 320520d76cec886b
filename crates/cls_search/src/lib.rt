//! The search for typings: kinds stand at the places that jumps lead to, and are raised until all that
//! leads there fits. It finds the least typing of a method exactly where there is one.
#![tactic(auto)]

mod begin;
mod fault;
mod joins;
mod leading;
mod method;
mod program;
mod waiting;
mod walk;

pub use fault::VerifyFault;
pub use program::verify;
