//! Words and signs of Java that are read here and stand for nothing.
//! A file with one of them is refused by name.

ghost use Rattle.std.specs.Prelude.{◌≡◌, option_map};
ghost use Rattle.mg_read.specs.Culprit.{culprit};
ghost use Rattle.mg_read.specs.First.{Judged};
ghost use Rattle.jv_tree.specs.Tokens.{is_among, unsupported};
ghost use Rattle.jv_parse.specs.Unsupported.{unsupported_sign, unsupported_text, IsUnsupported};

use jv_tree::{Sign, Token, TokenKind};
use mg_text::{Place, is_java_word};

const UNSUPPORTED: [&str; 26] = [
    "abstract",
    "assert",
    "byte",
    "catch",
    "char",
    "const",
    "double",
    "extends",
    "finally",
    "float",
    "for",
    "goto",
    "implements",
    "instanceof",
    "interface",
    "long",
    "native",
    "short",
    "strictfp",
    "super",
    "synchronized",
    "throw",
    "throws",
    "transient",
    "try",
    "volatile",
];

fn is_unsupported(word: &str) -> bool
    ensures { result ≡ is_among unsupported word.now }
{
    if !is_java_word(word) {
        return false;
    }
    UNSUPPORTED.contains(&word)
}

// The text of a sign that isn't supported.
fn unsupported_sign(sign: Sign) -> Option<&'static str>
    ensures { option_map (λ t. t.now) result ≡ unsupported_sign sign }
{
    match sign {
        Sign::Question => Some("?"),
        Sign::Ampersand => Some("&"),
        Sign::Bar => Some("|"),
        Sign::Caret => Some("^"),
        Sign::Tilde => Some("~"),
        _ => None,
    }
}

// The text of a token that isn't supported.
fn unsupported_text(kind: &TokenKind) -> Option<&str>
    ensures { option_map (λ t. t.now) result ≡ unsupported_text kind.now }
{
    match kind {
        TokenKind::Word(word) => {
            if is_unsupported(word.as_str()) {
                Some(word.as_str())
            } else {
                None
            }
        }
        TokenKind::Sign(sign) => unsupported_sign(*sign),
        TokenKind::Number(_) | TokenKind::Text(_) => None,
    }
}

// The first token that isn't supported: where it stands, and its text.
pub(crate) fn first_unsupported(tokens: &[Token]) -> Option<(Place, &str)>
    ensures { Judged IsUnsupported tokens.now (option_map (λ x. culprit x.0 x.1.now) result) }
{
    let mut rest = tokens;
    'tokens: while let Some((first, after)) = rest.split_first() {
        if let Some(text) = unsupported_text(&first.kind) {
            return Some((first.place, text));
        }
        rest = after;
    }
    None
}
