//! The steps of typable programs without tests: where a machine fits the typings of its methods, nothing is wrong with its next
//! instruction. Protocol methods that begin and are left are steps of their own; what looks at a message or has no flat form is left to
//! others.
#![tactic(auto)]

mod calls;
mod fields;
mod steps;
mod telling;
mod within;

pub use calls::enter;
pub use steps::{next_has_form, steps_typed};
pub use telling::{Telling, answer_of, tell};
