//! The text of each file that a program gets to play a role is Java: some tree is spelled by it.
//! The one function here carries the law.
#![tactic(auto)]

mod spelled;

pub use spelled::files_are_spelled;
