//! The text of a local protocol reads back to the same protocol, places aside.
#![tactic(auto)]

mod back;

pub use back::{printed_reads_back, printed_spells};
