//! Whether the files of a command, run by some roles, fit a global protocol: they do, or the first
//! refusal is told.
#![tactic(auto)]

mod fitted;
mod laws;

pub use fitted::fit;
pub use laws::refusals_are_alike;
pub use mg_runs::RoleMain;
