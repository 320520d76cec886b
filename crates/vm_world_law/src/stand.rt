//! How a role stands.

use mg_text::{Ending, Text};

/// How a role stands at a moment of a run.
#[derive(Drop)]
pub enum Stand {
    /// It ended so.
    Ended(Ending),
    /// Its next instruction wants a message of the role of this name, and there is none.
    Waits(Text),
    /// It goes on. At the end of a run that is at the bound of the instructions that may be taken.
    Bound,
}
