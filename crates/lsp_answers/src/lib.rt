//! The answer to each question of an editor about a document: what is shown over a place of it and behind its calls, what
//! may be put at a place and where something is defined, what the document declares, and its diagram.
#![tactic(auto)]

mod answers;

pub use answers::answer;
