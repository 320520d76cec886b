//! The parts of a typestate: states, their methods, and where each method leads.

use mg_text::{List, Text};

/// A type that a method's signature names.
#[derive(Debug)]
pub enum TypeName {
    Void,
    Int,
    Boolean,
    /// Java's String.
    Text,
    /// An enum or a class.
    Named(Text),
}

// One call lets go of it, wherever a function ends.
impl Drop for TypeName {
    fn drop(self) {
        match self {
            TypeName::Void => {}
            TypeName::Int => {}
            TypeName::Boolean => {}
            TypeName::Text => {}
            TypeName::Named(_) => {}
        }
    }
}

/// Where a call leads: to the state of this number, counted from 0, or to the end.
#[derive(Clone, Copy, Debug, PartialEq, Eq)]
pub enum To {
    State(u32),
    End,
}

/// Where a call leads that answers with this label.
#[derive(Drop)]
pub struct Branch {
    pub label: Text,
    pub to: To,
}

/// Where the calls of a method lead.
#[derive(Drop)]
pub enum Target {
    /// Each leads there, whatever it answers.
    One(To),
    /// It depends on the label that the call answers with.
    ByAnswer(List<Branch>),
}

/// A method that a state offers.
#[derive(Drop)]
pub struct Method {
    pub result: TypeName,
    pub name: Text,
    pub params: List<TypeName>,
    pub target: Target,
}

/// A state, the methods that it offers, and whether an object may be left in it.
#[derive(Drop)]
pub struct State {
    pub name: Text,
    pub methods: List<Method>,
    /// Whether it is marked `drop: end`: an object in it may be left, overwritten or discarded.
    pub drops: bool,
}
