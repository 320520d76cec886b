//! What a run came to.

use mg_compile::ClassFile;
use mg_text::{Bytes, List, Text};
use vm_world::RoleRan;

/// A run of several roles.
#[derive(Drop)]
pub struct Ran {
    /// The class files of the program, in the order of its classes.
    pub files: List<ClassFile>,
    /// How many instructions each role took, and how it stands, in the order of the roles.
    pub roles: List<RoleRan>,
    /// What was printed, a line feed behind each text, and the name of its role before it where
    /// that is asked for.
    pub printed: Bytes,
    /// The lines of the other events, where they are asked for; else it is empty.
    pub trace: Text,
    /// How many messages were sent.
    pub messages: usize,
}
