//! Class files from outside: they are read, linked and run by several roles, each from the `main` of
//! a class, or the first refusal is told. Nothing is assumed of them.
#![tactic(auto)]

mod execution;
mod faults;
mod mains;
mod ran;
mod reading;
mod typed;

pub use execution::{exec_roles, program};
pub use mg_runs::{RoleMain, RoleRan, Stand};
pub use ran::Ran;
