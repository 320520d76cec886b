//! A file as it is written: types, roles and payloads by their names, beside what they mean.

use crate::Statement;
use mg_text::{List, Place, Text};

/// A declaration `type <language> "class" from ".." as alias;`, with the place of its alias.
pub struct Declaration {
    pub place: Place,
    pub language: Text,
    pub class: Text,
    pub alias: Text,
}

// One call lets go of it, wherever a function ends.
impl Drop for Declaration {
    fn drop(self) {
        let Declaration {
            place: _,
            language: _,
            class: _,
            alias: _,
        } = self;
    }
}

/// A role that is named, and where.
#[derive(Drop)]
pub struct Role {
    pub place: Place,
    pub name: Text,
}

/// The types that stand between the parentheses of a message, with the message's place.
pub struct Carries {
    pub place: Place,
    pub types: List<Text>,
}

// One call lets go of it, wherever a function ends.
impl Drop for Carries {
    fn drop(self) {
        let Carries { place: _, types: _ } = self;
    }
}

/// The roles that stand between the parentheses of a `do`, with its place and the protocol that it
/// names.
pub struct Arguments {
    pub place: Place,
    pub name: Text,
    pub roles: List<Text>,
}

// One call lets go of it, wherever a function ends.
impl Drop for Arguments {
    fn drop(self) {
        let Arguments {
            place: _,
            name: _,
            roles: _,
        } = self;
    }
}

/// A protocol of a file, with the place of its name.
#[derive(Drop)]
pub struct WrittenPart {
    pub place: Place,
    pub name: Text,
    /// The role that the protocol is of, where it is named behind `at` or by `self`.
    pub me: Role,
    /// The roles that are listed, in the order of the text.
    pub roles: List<Role>,
    /// What each message carries, in the order of the text.
    pub carries: List<Carries>,
    /// What each `do` is given, in the order of the text.
    pub arguments: List<Arguments>,
    /// What the role does. A message whose types mean nothing carries nothing.
    pub body: List<Statement>,
}

/// The parts of a file.
#[derive(Drop)]
pub struct Written {
    /// The types that are declared, in the order of the text.
    pub types: List<Declaration>,
    /// The protocol that the file is of.
    pub first: WrittenPart,
    /// The protocols behind it, in the order of the text.
    pub others: List<WrittenPart>,
}
