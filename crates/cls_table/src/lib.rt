//! A program in kinds: what its classes, fields and methods are by numbers of kinds, looked up once.
#![tactic(auto)]

mod classes;
mod names;
mod types;

pub use classes::{ClassKinds, MethodKinds, ProgramKinds};
