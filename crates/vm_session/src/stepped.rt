//! What a step did.
//! It goes on, waits for a message, or has ended the run.

ghost use Rattle.std.specs.Prelude.{◌≡◌};

use mg_text::{BadKind, Ending, Event};

/// What a step did.
#[derive(Debug, Drop)]
pub enum Stepped {
    /// It went on, with at most one event.
    Went(Option<Event>),
    /// It waits for a message from this role, and nothing has changed.
    Waits(u32),
    /// It ended the run.
    Ended(Ending),
}

/// The code is wrong in this way, which ends the run.
pub fn broken(kind: BadKind) -> Stepped
    ensures { result ≡ Stepped.Ended (Ending.Bad kind) }
{
    Stepped::Ended(Ending::Bad(kind))
}
