//! What one role does in a global protocol, as its local protocol.
//! The answer is the projection, or why there is none.
#![tactic(auto)]

mod fault;
mod laws;
mod merge;
mod names;
mod part;
mod projection;
mod same;
mod walk;

pub use fault::ProjectFault;
pub use laws::{none_is_stuck, runs_are_followed};
pub use projection::project;
