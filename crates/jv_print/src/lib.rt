//! The text of a Java file: how its tree is laid out.
//! Four spaces a level, one statement a line, no blank lines.
#![tactic(auto)]

mod exprs;
mod files;
mod stmts;
mod words;
mod writing;

pub use files::print_file;
