//! Messages of the server, written as the JSON that frames hold.
#![tactic(auto)]

mod answers;
mod laws;
mod lists;
mod parts;
mod saying;

pub use laws::rows_hold;
pub use saying::say;
