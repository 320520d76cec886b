//! The language server as a pure machine: which documents stand, in which phase it is, and what each message comes to.
//! Nothing is judged here: a step may say what is to be judged or asked about.
#![tactic(auto)]

mod laws;
mod phase;
mod server;
mod standing;
mod step;

pub use laws::{documents_are_of_notices, nothing_after_exit, one_response_each, rows_hold};
pub use phase::Phase;
pub use server::Server;
pub use step::Step;
