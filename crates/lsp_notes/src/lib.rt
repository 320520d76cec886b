//! Refusals as diagnostics, each in the list of the file where it stands.
#![tactic(auto)]

mod files;
mod homes;
mod laws;
mod notes;

pub use files::told_by_file;
pub use laws::{each_is_told_once, nothing_else_is_told, nothing_is_told};
