//! What each variable may be where a protocol method is called on it, as lines.
//! Calls stand by file and place; the sets are those of the least tables, whether or not demands fail.
#![tactic(auto)]

ghost use Rattle.mg_shown.specs.Computed.{ExamplesShow};
ghost use Rattle.mg_shown.specs.Shown.{OneShown};

pub mod listed;
pub mod seen;
mod shown;
mod sites;

pub use shown::{show, variable_text};

/// The lines are computed on worked programs. The function carries a law.
pub fn examples_show()
    ensures { ExamplesShow }
{}

/// A program has one text of lines. The function carries a law.
pub fn one_show()
    ensures { OneShown }
{}
