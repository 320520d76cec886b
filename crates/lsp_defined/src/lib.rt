//! Where the methods of calls are defined, in classes and in protocols, and what is shown over the words of protocols and
//! typestates: where each method leads.
#![tactic(auto)]

mod actions;
mod called;
mod calls;
mod files;
mod hovers;
mod laws;
mod lines;
mod locations;
mod messages;
mod methods;
mod shown;
mod spots;

pub use calls::definitions;
pub use hovers::hover;
pub use laws::{each_call_stands, rows_hold};
