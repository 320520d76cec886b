//! Packages of Java for the files that a program gets to play a role: which words name one, what
//! stands before a file's text, and the law that a file in a package declares what it does without.
#![tactic(auto)]

mod head;
mod package;
mod spelled;

pub use head::{class_head, enum_head};
pub use package::is_package;
pub use spelled::headed_are_spelled;
