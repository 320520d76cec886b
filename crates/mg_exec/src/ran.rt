//! What a run of class files came to.

use mg_text::{Bytes, List, Text};
use vm_world::RoleRan;

/// A run of several roles, of class files.
#[derive(Drop)]
pub struct Ran {
    /// How many instructions each role took, and how it stands, in the order of the roles.
    pub roles: List<RoleRan>,
    /// What was printed, a line feed behind each text, and the name of its role before it where
    /// that is asked for.
    pub printed: Bytes,
    /// The lines of the other events, where they are asked for; else it is empty.
    pub trace: Text,
}
