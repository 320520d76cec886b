//! Roles of a run: where they begin, what is seen of them, and what a turn does.
//! Definitions and code share these types.

use mg_text::{Ending, Event, Text};

/// A role and the class whose `main` it runs.
#[derive(Drop)]
pub struct RoleMain {
    pub role: Text,
    pub class: Text,
}

/// An event, and the number of the role of which it is seen.
#[derive(Drop)]
pub struct RoleEvent {
    pub role: u32,
    pub event: Event,
}

/// What a turn did.
#[derive(Drop)]
pub enum Turned {
    /// The role took an instruction.
    Went,
    /// It waits for a message from this role, and nothing has changed.
    Waits(u32),
    /// It ended so, now or before.
    Ended(Ending),
}
