//! A file of a global protocol as it is written: types, roles and payloads by their names, beside
//! what they mean.

use crate::GStatement;
use mg_text::{List, Text};
use scr_tree::{Carries, Declaration, Role};

/// The parts of a file.
#[derive(Drop)]
pub struct WrittenGlobal {
    /// The types that are declared, in the order of the text.
    pub types: List<Declaration>,
    /// The protocol's name.
    pub name: Text,
    /// The roles that are listed, in the order of the text.
    pub roles: List<Role>,
    /// What each message carries, in the order of the text.
    pub carries: List<Carries>,
    /// What the roles do. A message whose types mean nothing carries nothing.
    pub body: List<GStatement>,
}
