//! A typestate file as it is written: every name with its place, and targets by name.
//! Whether the names mean something is judged later.

ghost use Rattle.std.specs.Prelude.{◌≡◌};

use mg_text::{List, Place, Text};
use ts_tree::TypeName;

/// A name where it stands.
pub struct Naming {
    pub place: Place,
    pub text: Text,
}

// One call lets go of it, wherever a function ends.
impl Drop for Naming {
    fn drop(self) {
        let Naming { place: _, text: _ } = self;
    }
}

impl Naming {
    // Its text, without the place.
    pub(crate) fn into_text(self) -> Text
        ensures { result ≡ self.text }
    {
        let Naming { place: _, text } = self;
        text
    }
}

/// A label, and the name of the state that it leads to.
#[derive(Drop)]
pub struct WrittenBranch {
    pub label: Naming,
    pub to: Naming,
}

/// Where the calls of a method lead, by the names of states.
#[derive(Drop)]
pub enum WrittenTarget {
    One(Naming),
    ByAnswer(List<WrittenBranch>),
}

/// A method of a state.
#[derive(Drop)]
pub struct WrittenMethod {
    pub result: TypeName,
    pub name: Naming,
    pub params: List<TypeName>,
    pub target: WrittenTarget,
}

/// An entry of a state.
#[derive(Drop)]
pub enum WrittenEntry {
    Method(WrittenMethod),
    /// `drop: end`, at the place of its `drop`.
    DropEnd(Place),
}

/// A state, and its entries in the order of the text.
pub struct WrittenState {
    pub name: Naming,
    pub entries: List<WrittenEntry>,
}

// One call lets go of it, wherever a function ends.
impl Drop for WrittenState {
    fn drop(self) {
        let WrittenState {
            name: _,
            entries: _,
        } = self;
    }
}

/// A typestate, and its states in the order of the text.
#[derive(Drop)]
pub struct WrittenTypestate {
    pub name: Text,
    pub states: List<WrittenState>,
}
