//! Whether the usages of a program are right, and what they are.
//! The verdict is `use_verdict`'s; the report tells what the least tables of an accepted program hold.
#![tactic(auto)]

ghost use Rattle.use_check.specs.Computed.{ReportsOfExamples};
ghost use Rattle.use_check.specs.Report.{OneReport};

mod contexts;
mod lines;
mod reports;

pub use lines::put_set;
pub use reports::report;
pub use use_verdict::{Accepted, CheckFault, check};

/// The text of a report is computed on worked programs. The function carries a law.
pub fn examples_report()
    ensures { ReportsOfExamples }
{}

/// A program has one report. The function carries a law.
pub fn one_report()
    ensures { OneReport }
{}
