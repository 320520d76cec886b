//! Why the files of a command are refused, as data: a kind, a spot and a name. The line that is said
//! of a refusal is made where all is told; which refusal is the first is said of refusals alone.
#![tactic(auto)]

mod refusal;
mod stop;

pub use refusal::{Refusal, Spot};
pub use stop::Stop;
