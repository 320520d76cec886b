//! Local protocols: their tokens, their trees, and the names of the calls that stand for them.
//! The definitions say what a protocol is, what it may do step by step, and which calls are its traces.
#![tactic(auto)]

mod condition;
mod local;
mod names;
mod syntax;
mod token;
mod written;

pub use condition::Condition;
pub use local::Local;
pub use names::{call_name, label_call};
pub use syntax::{Direction, Message, Part, Payload, Statement};
pub use token::{Mark, Token, TokenKind};
pub use written::{Arguments, Carries, Declaration, Role, Written, WrittenPart};
