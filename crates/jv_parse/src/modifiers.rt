//! Modifiers in front of classes, enums and members: `public` and its like.
//! They are read over, and of a member it is told whether `static` is among them.

ghost use Rattle.std.specs.Prelude.{◌≡◌};
ghost use Rattle.jv_tree.specs.Tokens.{is_among};
ghost use Rattle.jv_tree.specs.Files.{is_kind_among, modifiers};
ghost use Rattle.jv_grammar.specs.Files.{after_mods, static_mods};
ghost use Rattle.jv_parse.specs.inner.Modifiers.{words_of};

use jv_tree::{Token, TokenKind};

/// Modifiers of one thing.
#[derive(Clone, Copy)]
pub(crate) enum Modifiers {
    OfMember,
    OfClass,
    OfEnum,
    Static,
}

const OF_MEMBER: [&str; 5] = ["public", "private", "protected", "static", "final"];

const OF_CLASS: [&str; 2] = ["public", "final"];

const OF_ENUM: [&str; 1] = ["public"];

const STATIC: [&str; 1] = ["static"];

// Whether a word is one of them.
fn is_among(mods: Modifiers, word: &str) -> bool
    ensures { result ≡ is_among (words_of mods) word.now }
{
    match mods {
        Modifiers::OfMember => OF_MEMBER.contains(&word),
        Modifiers::OfClass => OF_CLASS.contains(&word),
        Modifiers::OfEnum => OF_ENUM.contains(&word),
        Modifiers::Static => STATIC.contains(&word),
    }
}

// Whether a token is one of them.
fn is_kind_among(mods: Modifiers, kind: &TokenKind) -> bool
    ensures { result ≡ is_kind_among (words_of mods) kind.now }
{
    match kind {
        TokenKind::Word(word) => is_among(mods, word.as_str()),
        TokenKind::Number(_) | TokenKind::Text(_) | TokenKind::Sign(_) => false,
    }
}

// What comes behind them.
pub(crate) fn after_mods(mods: Modifiers, tokens: &[Token]) -> &[Token]
    ensures { result.now ≡ after_mods (words_of mods) tokens.now }
{
    let mut rest = tokens;
    'words: while let Some((first, after)) = rest.split_first() {
        if !is_kind_among(mods, &first.kind) {
            return rest;
        }
        rest = after;
    }
    rest
}

// Whether `static` is among those of a member.
pub(crate) fn static_mods(tokens: &[Token]) -> bool
    ensures { result ≡ static_mods modifiers tokens.now }
{
    let mut rest = tokens;
    'words: while let Some((first, after)) = rest.split_first() {
        if !is_kind_among(Modifiers::OfMember, &first.kind) {
            return false;
        }
        if is_kind_among(Modifiers::Static, &first.kind) {
            return true;
        }
        rest = after;
    }
    false
}
