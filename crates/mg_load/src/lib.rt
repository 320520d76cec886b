//! A workload of any size: two roles that answer each other, in an order that a number picks.
//! Its definition is the texts of its four files.
#![tactic(auto)]

mod classes;
mod files;
mod picks;
mod protocols;

pub use files::{MOST, Workload, file_names, load_files, loaded_line};
