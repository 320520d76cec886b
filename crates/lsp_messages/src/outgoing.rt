//! What the server tells a client.

use crate::id::Id;
use lsp_text::{Encoding, Position, Range};
use mg_text::Text;

/// What one frame of the server holds.
#[derive(Drop)]
pub enum Outgoing {
    /// The response to a request that is answered.
    Answered {
        /// The request's id.
        id: Id,
        /// The answer.
        answer: Answer,
    },
    /// The response to what isn't answered.
    Refused {
        /// The request's id, where it has one.
        id: Option<Id>,
        /// Why it isn't answered.
        code: Code,
    },
    /// `textDocument/publishDiagnostics`: all that is wrong with a document from now on.
    Diagnosed {
        /// The document's name.
        document: Text,
        /// Its version, where it is open.
        version: Option<i64>,
        /// What is wrong with it.
        diagnostics: Vec<Diagnostic>,
    },
}

/// Why something isn't answered: the protocol's error codes.
#[derive(Clone, Copy, PartialEq, Eq)]
pub enum Code {
    /// -32700: no JSON.
    ParseError,
    /// -32600: no message, or one that may not come now.
    InvalidRequest,
    /// -32601: a method that isn't known.
    MethodNotFound,
    /// -32602: parameters that aren't the protocol's.
    InvalidParams,
    /// -32002: a request before `initialize`.
    ServerNotInitialized,
}

/// What a request is answered.
#[derive(Drop)]
pub enum Answer {
    /// `null`.
    Nothing,
    /// What the server can do, and how it counts the characters of a line.
    Capabilities(Encoding),
    /// What is shown at a place: lines of plain text, and where they belong.
    Hover {
        /// The lines, each with its end.
        text: Text,
        /// What they are about.
        range: Range,
    },
    /// What may be put at a place, in its order.
    Completion(Vec<Item>),
    /// What is shown between the characters of a text.
    Hints(Vec<Hint>),
    /// Where something is defined.
    Definition(Vec<Location>),
    /// What a document declares, in the order of its text.
    Symbols(Vec<Symbol>),
    /// A diagram, in the language of Mermaid.
    Diagram(Text),
}

/// What is wrong at a place. Each is an error.
#[derive(Drop)]
pub struct Diagnostic {
    /// Where it shows.
    pub range: Range,
    /// The word of its kind.
    pub code: Text,
    /// What is said of it.
    pub message: Text,
}

/// A method that may be called.
#[derive(Drop)]
pub struct Item {
    /// Its name, which is put.
    pub name: Text,
    /// Its signature.
    pub signature: Text,
    /// Whether each state offers it that the object may have there, and not some of them only.
    pub always: bool,
}

/// A text that is shown between the characters of a document.
#[derive(Drop)]
pub struct Hint {
    /// Where it is shown.
    pub position: Position,
    /// What is shown.
    pub text: Text,
}

/// A range of a document.
#[derive(Drop)]
pub struct Location {
    /// The document's name.
    pub document: Text,
    /// Where in its text.
    pub range: Range,
}

/// What a document declares: the protocol's `SymbolInformation`.
#[derive(Drop)]
pub struct Symbol {
    /// Its name.
    pub name: Text,
    /// What it is.
    pub kind: SymbolKind,
    /// Where its name stands.
    pub location: Location,
    /// The name of what it is declared in, where it is declared in something.
    pub within: Option<Text>,
}

/// What a symbol is.
#[derive(Clone, Copy, PartialEq, Eq)]
pub enum SymbolKind {
    /// A class (5).
    Class,
    /// A method (6).
    Method,
    /// A field (8).
    Field,
    /// An enum (10).
    Enum,
    /// A protocol or a typestate (11, the protocol's interface).
    Protocol,
    /// A state of a typestate (22, the protocol's enum member).
    State,
}
