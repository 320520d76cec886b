//! What is wrong with the files of a program, as diagnostics of each file.
#![tactic(auto)]

mod diagnosed;

pub use diagnosed::diagnose;
