//! What an editor shows of a refusal: its kind, what is named, a sentence on it, and what to do about it.
#![tactic(auto)]

mod laws;
mod repairs;
mod shown;
mod table;

pub use laws::rows_hold;
pub use shown::message;
