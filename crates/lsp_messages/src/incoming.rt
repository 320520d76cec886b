//! What a client tells the server.

use crate::id::Id;
use lsp_text::{Change, Position, Range};
use mg_text::Text;

/// What one frame of a client holds.
#[derive(Drop)]
pub enum Incoming {
    /// A request, which gets one response.
    Request {
        /// Its id, which the response repeats.
        id: Id,
        /// What is asked for.
        call: Call,
    },
    /// A notification, which gets none.
    Told(Notice),
    /// A response. The server asks nothing, so it is to be ignored.
    Reply,
    /// No JSON.
    Malformed,
    /// JSON that is no message of the protocol.
    Ill {
        /// Its id, where it has one.
        id: Option<Id>,
    },
}

/// A position in a document.
#[derive(Drop)]
pub struct Point {
    /// The document's name.
    pub document: Text,
    /// Where in its text.
    pub position: Position,
}

/// What a request asks for.
#[derive(Drop)]
pub enum Call {
    /// `initialize`.
    Initialize {
        /// Whether the client can count in bytes of UTF-8.
        utf8: bool,
    },
    /// `shutdown`.
    Shutdown,
    /// Something about a document.
    Ask(Question),
    /// A method that isn't one of these.
    Unknown,
    /// One of these, whose parameters aren't the protocol's.
    BadParameters,
}

/// What is asked about a document.
#[derive(Drop)]
pub enum Question {
    /// `textDocument/hover`.
    Hover(Point),
    /// `textDocument/completion`.
    Completion(Point),
    /// `textDocument/definition`.
    Definition(Point),
    /// `textDocument/inlayHint`.
    Hints {
        /// The document's name.
        document: Text,
        /// Where hints are asked for.
        range: Range,
    },
    /// `textDocument/documentSymbol`, with the document's name.
    Symbols(Text),
    /// `workspace/executeCommand` with `mungo.diagram`, with the document's name.
    Diagram(Text),
}

/// What a notification tells.
#[derive(Drop)]
pub enum Notice {
    /// `initialized`.
    Initialized,
    /// `textDocument/didOpen`.
    Open {
        /// The document's name.
        document: Text,
        /// Its version.
        version: i64,
        /// Its text.
        text: Text,
    },
    /// `textDocument/didChange`.
    Change {
        /// The document's name.
        document: Text,
        /// The version that it has after the changes.
        version: i64,
        /// The changes, each to what those before it left.
        changes: Vec<Change>,
    },
    /// `textDocument/didSave`, with the document's name.
    Save(Text),
    /// `textDocument/didClose`, with the document's name.
    Close(Text),
    /// `exit`.
    Exit,
    /// `$/cancelRequest`.
    Cancel,
    /// Any other, and one of these whose parameters aren't the protocol's.
    Unknown,
}
