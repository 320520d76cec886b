//! The Java class by which a program plays a role, and the enums of the labels that other roles choose.
//! Each is made as a tree and as the text of that tree.
#![tactic(auto)]

mod bodies;
mod doings;
mod exprs;
mod files;
mod methods;

pub use files::{ApiFile, api};
