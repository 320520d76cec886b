//! The words that are reserved and not supported, by the kind of protocol.

ghost use Rattle.std.specs.Prelude.{◌≡◌, option_map};
ghost use Rattle.mg_read.specs.Culprit.{culprit};
ghost use Rattle.mg_read.specs.First.{Judged};
ghost use Rattle.scr_tree.specs.Tok.{tok, toks};
ghost use Rattle.scr_read.specs.Unsupported.{in_local, in_global, unsupported_word, IsUnsupported};
ghost use Rattle.scr_read.specs.inner.Finding.{word_in};

use mg_text::Place;
use scr_tree::{Mark, Token, TokenKind};

/// The kind of protocol that a file holds.
#[derive(Clone, Copy)]
pub enum ProtocolKind {
    Local,
    Global,
}

// The word that a mark is, if it isn't supported in such a protocol.
fn unsupported_word(kind: ProtocolKind, mark: Mark) -> Option<&'static str>
    ensures { option_map (λ w. w.now) result ≡ unsupported_word kind mark }
{
    match mark {
        Mark::Par => Some("par"),
        Mark::Interruptible => Some("interruptible"),
        Mark::Import => Some("import"),
        Mark::Sig => Some("sig"),
        Mark::Global => in_local(kind, "global"),
        Mark::Do => in_global(kind, "do"),
        Mark::Myself => in_global(kind, "self"),
        Mark::Local => in_global(kind, "local"),
        _ => None,
    }
}

// The word, in a local protocol.
fn in_local(kind: ProtocolKind, word: &'static str) -> Option<&'static str>
    ensures { option_map (λ w. w.now) result ≡ in_local kind word.now }
{
    match kind {
        ProtocolKind::Local => Some(word),
        ProtocolKind::Global => None,
    }
}

// The word, in a global protocol.
fn in_global(kind: ProtocolKind, word: &'static str) -> Option<&'static str>
    ensures { option_map (λ w. w.now) result ≡ in_global kind word.now }
{
    match kind {
        ProtocolKind::Local => None,
        ProtocolKind::Global => Some(word),
    }
}

// The word that a token is, if it isn't supported.
fn word_of(kind: ProtocolKind, token: &Token) -> Option<&'static str>
    ensures { option_map (λ w. w.now) result ≡ word_in kind (tok token.now) }
{
    match &token.kind {
        TokenKind::Mark(mark) => unsupported_word(kind, *mark),
        TokenKind::Name(_) | TokenKind::Quoted(_) => None,
    }
}

/// The first word that isn't supported in such a protocol, and where it stands.
pub fn first_unsupported(kind: ProtocolKind, tokens: &[Token]) -> Option<(Place, &'static str)>
    ensures { Judged (IsUnsupported kind) (toks tokens.now) (option_map (λ x. culprit x.0 x.1.now) result) }
{
    let mut rest = tokens;
    'tokens: while let Some((first, after)) = rest.split_first() {
        if let Some(word) = word_of(kind, first) {
            return Some((first.place, word));
        }
        rest = after;
    }
    None
}
