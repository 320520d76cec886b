//! The scan from left to right: one piece after another, each token with its place.
//! A piece that can't stand ends it.

ghost use Rattle.std.specs.Prelude.{◌≡◌, ◌≤◌, ◌++◌, length, IfOk, OnOk};
ghost use Rattle.std.specs.Str.{IsAscii};
ghost use Rattle.mg_text.specs.declared.place.Place.{Place};
ghost use Rattle.mg_read.specs.Lexed.{MatchLexed};
ghost use Rattle.mg_read.specs.Passes.{span};
ghost use Rattle.mg_read.specs.Pieces.{tokens_of};
ghost use Rattle.mg_read.specs.inner.Fronts.{content_shown, IsReadable};
ghost use Rattle.scr_tree.specs.Tok.{tok_at, toks};
ghost use Rattle.scr_tree.specs.Words.{reserved};
ghost use Rattle.scr_lex.specs.Pieces.{word_tok, tok_said, AreTokens, IsBadAt};
ghost use Rattle.scr_lex.specs.inner.Spaces.{is_space};

use crate::words::{reserved, sign_of, signs};
use mg_read::{LexFault, PieceKind, ascii_text, first_of, ill_formed_at, piece_of};
use mg_text::{List, Memory, Place};
use scr_tree::{Token, TokenKind};
use std::alloc::Global;

fn word_kind(alloc: Global, text: &[u8]) -> Result<TokenKind, Memory>
    requires { IsAscii text.now }
    ensures { IfOk result (λ k. (place : Place) → tok_at place k ≡ word_tok place text.now (reserved text.now)) }
{
    match reserved(text) {
        Some(mark) => Ok(TokenKind::Mark(mark)),
        None => Ok(TokenKind::Name(ascii_text(alloc, text)?)),
    }
}

// Appends the token that a piece with this text is, if it is one.
fn put(
    alloc: Global,
    found: &mut List<Token>,
    place: Place,
    kind: PieceKind,
    text: &[u8],
) -> Result<(), Memory>
    requires { IsReadable kind text.now }
    ensures { OnOk result (toks found.new.items ≡ toks found.old.items ++ tokens_of tok_said place (content_shown kind text.now)) }
{
    match kind {
        PieceKind::Gap => Ok(()),
        PieceKind::Word => {
            let kind = word_kind(alloc, text)?;
            found.push(Token { place, kind })?;
            Ok(())
        }
        PieceKind::Quote => {
            let body = &text[1..text.len() - 1];
            let kind = TokenKind::Quoted(ascii_text(alloc, body)?);
            found.push(Token { place, kind })?;
            Ok(())
        }
        PieceKind::Sign(sign) => match sign_of(sign) {
            Some(mark) => {
                let kind = TokenKind::Mark(mark);
                found.push(Token { place, kind })?;
                Ok(())
            }
            None => Ok(()),
        },
    }
}

fn is_space(byte: u8) -> bool
    ensures { result ≡ is_space byte }
{
    byte == b' '
}

// How many spaces stand at the front.
fn spaces_len(bytes: &[u8]) -> usize
    ensures value { result ≡ span is_space bytes.now }
    ensures within { result ≤ length bytes.now }
{
    bytes.iter().take_while(|byte| is_space(**byte)).count()
}

// The tokens of the bytes, piece by piece. Spaces at the front are passed at once: most bytes of a laid out file
// are such.
pub(crate) fn scan_tokens(alloc: Global, file: u32, bytes: &[u8]) -> Result<List<Token>, LexFault>
    requires { length bytes.now ≤ 1048576 }
    ensures { MatchLexed result (λ v. AreTokens file (toks v.items) bytes.now) (λ k. IsBadAt k bytes.now) }
{
    let ill_formed = ill_formed_at(bytes);
    let mut found = List::new(alloc);
    let mut place = Place::start(file);
    let mut offset = 0;
    let mut rest = bytes;
    'pieces: while !rest.is_empty() {
        let spaces = spaces_len(rest);
        if spaces > 0 {
            let next = place.after(&rest[..spaces]);
            place = next;
            offset += spaces;
            rest = &rest[spaces..];
            continue;
        }
        let Some(piece) = piece_of(signs(), true, rest) else {
            return Err(LexFault::BadByte(first_of(offset, ill_formed)));
        };
        let (text, after) = rest.split_at(piece.len);
        put(alloc, &mut found, place, piece.kind, text)?;
        place = place.after(text);
        offset += piece.len;
        rest = after;
    }
    match ill_formed {
        None => Ok(found),
        Some(at) => Err(LexFault::BadByte(at)),
    }
}
