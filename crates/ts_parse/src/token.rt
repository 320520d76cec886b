//! The tokens of a typestate file.
//! A name keeps its text; a reserved word or a sign is a mark.

use mg_text::{Place, Text};

/// A reserved word, or a sign.
#[derive(Clone, Copy, PartialEq, Eq)]
pub enum Mark {
    Typestate,
    Package,
    Import,
    OpenBrace,
    CloseBrace,
    OpenParen,
    CloseParen,
    Less,
    Greater,
    Equals,
    Comma,
    Colon,
    Semicolon,
    Dot,
    Star,
}

/// What a token is.
#[derive(Drop)]
pub enum TokenKind {
    Name(Text),
    Mark(Mark),
}

/// A token, and the place of its first byte.
pub struct Token {
    pub place: Place,
    pub kind: TokenKind,
}

// One call lets go of it, wherever a function ends.
impl Drop for Token {
    fn drop(self) {
        let Token { place: _, kind: _ } = self;
    }
}
