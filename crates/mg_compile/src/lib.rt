//! The class files of a command: its files are one accepted program, whose classes become class
//! files, or the first refusal is told.
#![tactic(auto)]

mod compiled;
mod excess;
mod files;

pub use compiled::compile;
pub use files::{ClassFile, class_files};
