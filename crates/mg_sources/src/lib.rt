//! The sources of a command: each file is read by its reader, in the order of the words, and what
//! the files spell is one program.
#![tactic(auto)]

mod faults;
mod part;
mod parts;
mod sources;

pub use faults::{stop_of_condition, stop_of_protocol};
pub use part::{Part, read_part, read_protocol};
pub use parts::{check_roles, read_parts};
pub use sources::{Sources, read_program};
