//! What is seen of a run of roles, kept in few bytes: each event as a note that numbers its texts, and
//! each text once, as long as it comes again soon. Contracts see the list of the events, and the texts
//! that are kept, by their numbers.
#![tactic(auto)]

mod events;
mod guesses;
mod kind;
mod note;
mod numbered;
mod seen;
mod tables;
mod texts;

ghost use Rattle.vm_events.specs.Computed.{IsWorked, IsNumberedAlike, AreKinds};

pub use events::Events;
pub use kind::Kind;
pub use numbered::Numbered;
pub use seen::{Noted, SeenCarried, SeenEvent};

/// The events of a worked row of notes are computed, some of them as numbered events too, and their
/// kinds. The function carries a law.
pub fn notes_are_events()
    ensures events { IsWorked }
    ensures numbered { IsNumberedAlike }
    ensures kinds { AreKinds }
{}
