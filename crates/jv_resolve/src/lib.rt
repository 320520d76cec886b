//! From the table of a well-typed program to its core: names give way to numbers.
//! Names are looked up in hashed tables; no tree is copied to be read.
#![tactic(auto)]

mod body;
mod bounds;
mod calls;
mod classes;
mod exprs;
mod given;
mod heads;
mod labels;
mod literals;
mod locals;
mod lookup;
mod methods;
mod names;
mod operators;
mod program;
mod scope;
mod scoping;
mod simple;
mod stmts;
mod targets;
mod variables;
mod written;

pub use program::resolve;
