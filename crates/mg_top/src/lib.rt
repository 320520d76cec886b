//! The top call: from the words of the command line, a folder and two sinks to a status.
//! Its contract carries what the whole program promises.
#![tactic(auto)]

ghost use Rattle.mg_top.specs.Once.{YieldsOnce};

mod check;
mod client;
mod compile;
mod conform;
mod exec;
mod fit;
mod load;
mod project;
mod refine;
mod run;
mod show;
mod top;
mod translate;
mod verify;

pub use mg_delivery::Status;
use mg_fitted::refusals_are_alike;
pub use top::mungo;

/// Of the same contents a command gives one status, and the same actions, but for the place of Syntax
/// in a line. The function carries a law.
pub fn one_yield()
    ensures { YieldsOnce }
{
    refusals_are_alike();
}
