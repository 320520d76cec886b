//! The words of the command line: which command they are, or the first word that can't follow.
#![tactic(auto)]

ghost use Rattle.mg_words.specs.Words.{OneCommand};

mod asked;
mod checks;
mod fits;
mod names;
mod numbers;
mod options;
mod roles;
mod runs;
mod targets;
mod words;

pub use asked::{Asked, Cast, RoleClass};
pub use words::{Command, Judged, judge};

/// Words are one command at most, so the one that `judge` tells is the one that they are. The function carries a law.
pub fn one_command()
    ensures { OneCommand }
{}
