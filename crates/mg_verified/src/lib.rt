//! Class files from outside: they are read and linked as if they were to run, and each of their
//! methods is tried for a typing; or the first refusal is told.
#![tactic(auto)]

mod telling;
mod verified;

pub use verified::verify_files;
