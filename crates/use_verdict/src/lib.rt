//! Whether the usages of a program are right: the verdict, which is that of the least tables.
#![tactic(auto)]

ghost use Rattle.use_verdict.specs.Faults.{OneFault};

mod met;
mod verdict;

pub use met::{Usages, accepted, find_usages};
pub use verdict::{Accepted, CheckFault, check};

/// A program has one fault, want of memory aside. The function carries a law.
pub fn one_fault()
    ensures { OneFault }
{}
