//! The text of a Java file that some bytes spell reads back to the same file, places aside.
//! The one function here carries the law.
#![tactic(auto)]

mod back;

pub use back::printed_reads_back;
