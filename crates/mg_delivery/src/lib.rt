//! What a command gives to be done outside, and how it is done. How the files of a command are read,
//! the lines that are said, and the statuses with which a run ends.
#![tactic(auto)]

mod delivery;
pub mod lines;
mod reading;
mod status;

pub use delivery::{Action, Delivery, Output, deliver, starve};
pub use reading::{Unread, read_all};
pub use status::Status;
