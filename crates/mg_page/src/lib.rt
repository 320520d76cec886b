//! The program as a function of words and files, and of bytes: for a host that has no files and no streams, as a page.
//! Its contract is that of the top call, over files and sinks that are told and never fail.
#![tactic(auto)]

ghost use Rattle.mg_page.specs.Laws.{AsksOnce, AreAsked};

mod answering;
mod asking;
mod file;
mod pieces;
mod responding;
mod told_folder;
mod told_sink;

pub use answering::{Outcome, answer};
pub use asking::AskFault;
pub use file::File;
pub use responding::respond;

/// Two rows of bytes ask one thing at most. The function carries a law.
pub fn asks_once()
    ensures { AsksOnce }
{}

/// Words and files whose lengths four bytes hold are asked by these bytes. The function carries a law.
pub fn are_asked()
    ensures { AreAsked }
{}
