//! The tokens of a Scribble file.

use mg_text::{Place, Text};

/// A reserved word or a sign of Scribble.
#[derive(Clone, Copy, Debug, PartialEq, Eq)]
pub enum Mark {
    Module,
    Type,
    As,
    From,
    To,
    At,
    Local,
    Protocol,
    Role,
    Myself,
    Choice,
    Or,
    Rec,
    Continue,
    /// Reserved, and not supported.
    Par,
    /// Reserved, and not supported.
    Interruptible,
    Do,
    /// Reserved, and not supported in local protocols, as the two after it.
    Global,
    Import,
    Sig,
    OpenParen,
    CloseParen,
    OpenBrace,
    CloseBrace,
    Less,
    Greater,
    Comma,
    Semicolon,
    Dot,
}

/// What a token is.
#[derive(Drop)]
pub enum TokenKind {
    /// A name, which is no reserved word.
    Name(Text),
    /// What stands between two quotes.
    Quoted(Text),
    /// A reserved word or a sign.
    Mark(Mark),
}

/// A token, and the place of its first byte.
pub struct Token {
    pub place: Place,
    pub kind: TokenKind,
}

// One call lets go of it, wherever a function ends.
impl Drop for Token {
    fn drop(self) {
        let Token { place: _, kind: _ } = self;
    }
}
