//! What holds of every run of a program where no demand fails in an abstract frame that is reached.
//! There is no running code here; each function carries a law.
#![tactic(auto)]

mod laws;

pub use laws::{one_is_inspected, right_is_path, runs_are_safe};
