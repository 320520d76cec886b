//! The texts of a run of roles: the lines that tell its events, one for each event but a text that is
//! printed, and what it prints.
#![tactic(auto)]

mod lines;
mod names;
mod objects;
mod printing;
mod results;
mod roles;
mod tracing;
mod words;

ghost use Rattle.mg_trace.specs.Computed.{AreWorked};

pub use printing::printed;
pub use tracing::{plain_trace, trace};

/// The texts of worked runs are computed. The function carries a law.
pub fn runs_are_told()
    ensures { AreWorked }
{}
