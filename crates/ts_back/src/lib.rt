//! The text of a typestate that some file spells reads back to the same typestate.
//! The one function here carries the law.
#![tactic(auto)]

mod back;

pub use back::printed_reads_back;
