//! Class files of any compiler as trees: constants by number, members and the code of methods.
//! What a place may name of the constants is a definition here.
#![tactic(auto)]

mod class;
mod kind;

pub use class::{
    Annotation, Class, Code, Const, Element, ElementValue, Handler, Line, Member, Variable,
};
pub use kind::{Kind, is_of};
