//! What an editor and the language server tell each other, as data: nothing here knows of JSON or of frames.
//! Documents go by their names, which are URIs as the client writes them.
#![tactic(auto)]

mod id;
mod incoming;
mod outgoing;

pub use id::Id;
pub use incoming::{Call, Incoming, Notice, Point, Question};
pub use outgoing::{Answer, Code, Diagnostic, Hint, Item, Location, Outgoing, Symbol, SymbolKind};
