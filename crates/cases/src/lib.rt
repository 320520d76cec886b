//! Tests as data: files of cases, each with a name, what is given and what is wanted.
//! A program answers what is given, and tells each case whose answer is not the wanted one.
//!
//! A file of cases is UTF-8 text, in lines:
//!
//! ```text
//! # A comment, which may stand anywhere.
//! === a name too long
//! typestate \[n*256] {}
//! ---
//! 1:11: BadByte
//! ```
//!
//! What is given are the lines up to `---`, what is wanted those behind it, both without their last
//! line feed, and without empty lines at their end. A backslash there begins one of these:
//!
//! ```text
//! \\            a backslash
//! \n \r \t \0   one of the bytes 10, 13, 9 and 0
//! \xHH          the byte of this number
//! \-            nothing: behind it a line may begin with `=== `, `# ` and the like, or be empty
//! \[part*9]     the part 9 times; it may hold any of the above, but neither `]` nor a line's end
//! \@[part*9]    the same with each `@` of the part written as the number of the time, from 0
//! ```
//!
//! What is called `frame` is no case: what the cases behind it give stands in its text, at `BODY`.
#![tactic(auto)]

mod answer;
mod case;
mod escapes;
mod fault;
mod reading;
mod telling;

pub use answer::{Answer, told};
pub use case::{File, files_of};
pub use fault::CasesFault;
pub use telling::{Answers, tell};
