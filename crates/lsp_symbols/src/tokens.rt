//! The tokens of protocols and typestates: words at their places, and signs.

ghost use Rattle.std.specs.Prelude.{◌≡◌, ◌≤◌, ◌++◌, length, IfOk, OnOk};
ghost use Rattle.std.specs.Str.{IsAscii};
ghost use Rattle.mg_text.specs.declared.place.Place.{Place};
ghost use Rattle.mg_read.specs.Lexed.{MatchLexed};
ghost use Rattle.mg_read.specs.Pieces.{HasTokens, IsBadAt, tokens_of};
ghost use Rattle.mg_read.specs.inner.Fronts.{content_shown, IsReadable};
ghost use Rattle.lsp_symbols.specs.Tokens.{shared, said, AreTokens};

use mg_read::{LexFault, PieceKind, ascii_text, first_of, ill_formed_at, piece_of};
use mg_text::{Memory, Place, Text};
use std::alloc::Global;

// Bytes that a file may hold.
const MAX_BYTES: usize = 1_048_576;

/// A token.
#[derive(Drop)]
pub enum Token {
    /// A word, and where it stands.
    Word(Place, Text),
    /// A sign.
    Sign(u8),
}

// The bytes that are signs.
fn signs() -> &'static [u8]
    ensures { result.now ≡ shared.signs }
{
    b"{}()<>=,:;.*"
}

// Appends the token that a piece with this text is, if it is one.
fn put(
    alloc: Global,
    found: &mut Vec<Token>,
    place: Place,
    kind: PieceKind,
    text: &[u8],
) -> Result<(), Memory>
    requires { IsReadable kind text.now }
    ensures { OnOk result (found.new.items ≡ found.old.items ++ tokens_of said place (content_shown kind text.now)) }
{
    match kind {
        PieceKind::Gap | PieceKind::Quote => Ok(()),
        PieceKind::Word => {
            let text = ascii_text(alloc, text)?;
            found.push(Token::Word(place, text))?;
            Ok(())
        }
        PieceKind::Sign(sign) => {
            found.push(Token::Sign(sign))?;
            Ok(())
        }
    }
}

// The tokens of the bytes, piece by piece.
fn scan_tokens(alloc: Global, bytes: &[u8]) -> Result<Vec<Token>, LexFault>
    requires { length bytes.now ≤ 1048576 }
    ensures { MatchLexed result (λ v. HasTokens shared said 0 v.items bytes.now) (λ k. IsBadAt shared bytes.now k) }
{
    let ill_formed = ill_formed_at(bytes);
    let mut found = Vec::new(alloc);
    let mut place = Place::start(0);
    let mut offset = 0;
    let mut rest = bytes;
    'pieces: while !rest.is_empty() {
        let Some(piece) = piece_of(signs(), true, rest) else {
            return Err(LexFault::BadByte(first_of(offset, ill_formed)));
        };
        let (text, after) = rest.split_at(piece.len);
        put(alloc, &mut found, place, piece.kind, text)?;
        place = place.after(text);
        offset += piece.len;
        rest = after;
    }
    match ill_formed {
        None => Ok(found),
        Some(at) => Err(LexFault::BadByte(at)),
    }
}

/// The tokens of a file. Bytes that are cut into none, or are more than a file may hold, have none.
///
/// # Errors
/// `Memory` only.
pub(crate) fn tokens_of(alloc: Global, bytes: &[u8]) -> Result<Vec<Token>, Memory>
    ensures { IfOk result (λ v. AreTokens bytes.now v.items) }
{
    if bytes.len() > MAX_BYTES {
        return Ok(Vec::new(alloc));
    }
    match scan_tokens(alloc, bytes) {
        Ok(tokens) => Ok(tokens),
        Err(LexFault::BadByte(_)) => Ok(Vec::new(alloc)),
        Err(LexFault::Memory) => Err(Memory),
    }
}
