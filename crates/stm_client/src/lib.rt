//! The client of a local protocol: a Java class whose `main` plays the whole protocol, statement by
//! statement, to begin a program with.
#![tactic(auto)]

mod body;
mod exprs;
mod files;
mod labels;
mod laws;
mod points;
mod stmts;
mod survey;

pub use files::client;
pub use laws::labels_are_free;
