//! The scan from left to right: one piece after another, each token with its place.
//! A piece that can't stand ends it.

ghost use Rattle.std.specs.Prelude.{◌≡◌, ◌≤◌, ◌++◌, length, IfOk, OnOk, MatchOption, Err};
ghost use Rattle.std.specs.Str.{IsUtf8, IsValidUpTo};
ghost use Rattle.jv_lex.specs.Letters.{escaped_byte};
ghost use Rattle.jv_lex.specs.Faults.{told};
ghost use Rattle.jv_lex.specs.Outcome.{Outcome, Answers};
ghost use Rattle.jv_lex.specs.inner.Front.{meaning, tokens_shown, IsReadable};
ghost use Rattle.jv_lex.specs.inner.Scan.{IsStopped, IsWhole};

use crate::fault::{Cause, LexFault};
use crate::front::{PieceKind, Stop, piece_of};
use jv_tree::{Token, TokenKind};
use mg_read::{ascii_text, ill_formed_at};
use mg_text::{List, Memory, Place, Text, place_of};
use std::alloc::Global;

fn fault_at(cause: Cause, place: Place) -> LexFault
    ensures { result ≡ told cause place }
{
    match cause {
        Cause::BadByte => LexFault::BadByte { place },
        Cause::OpenComment => LexFault::OpenComment { place },
        Cause::OpenText => LexFault::OpenText { place },
        Cause::BadEscape => LexFault::BadEscape { place },
        Cause::BadNumber => LexFault::BadNumber { place },
    }
}

// What a backslash and this byte stand for.
fn escaped_byte(byte: u8) -> u8
    ensures { result ≡ escaped_byte byte }
{
    match byte {
        b'b' => 8,
        b't' => b'\t',
        b'n' => b'\n',
        b'f' => 12,
        b'r' => b'\r',
        other => other,
    }
}

// What stands between quotes, with its escapes read.
fn text_of(alloc: Global, body: &[u8]) -> Result<Text, Memory>
    requires { IsUtf8 (meaning body.now) }
    ensures { IfOk result (λ t. t ≡ meaning body.now) }
{
    let mut read = Vec::new(alloc);
    let mut after_backslash = false;
    let mut rest = body;
    'bytes: while let Some((byte, after)) = rest.split_first() {
        if after_backslash {
            read.push(escaped_byte(*byte))?;
            after_backslash = false;
        } else if *byte == b'\\' {
            after_backslash = true;
        } else {
            read.push(*byte)?;
        }
        rest = after;
    }
    let text = String::from_utf8(read).unwrap();
    Ok(Text::from_string(text))
}

// Appends the token that a piece with this text is, if it is one.
fn put(
    alloc: Global,
    found: &mut List<Token>,
    place: Place,
    kind: PieceKind,
    bytes: &[u8],
) -> Result<(), Memory>
    requires { IsReadable kind bytes.now }
    ensures { OnOk result (found.new.items ≡ found.old.items ++ tokens_shown place kind bytes.now) }
{
    let kind = match kind {
        PieceKind::Gap => return Ok(()),
        PieceKind::Word => TokenKind::Word(ascii_text(alloc, bytes)?),
        PieceKind::Number(number) => TokenKind::Number(number),
        PieceKind::Text => TokenKind::Text(text_of(alloc, &bytes[1..bytes.len() - 1])?),
        PieceKind::Sign(sign) => TokenKind::Sign(sign),
    };
    found.push(Token { place, kind })?;
    Ok(())
}

// Where the pieces of the bytes end before the bytes do, if they do.
fn stop_of(bytes: &[u8]) -> Option<Stop>
    requires { length bytes.now ≤ 1048576 }
    ensures { MatchOption result (IsWhole bytes.now) (λ stop. IsStopped bytes.now stop.cause stop.at) }
{
    let mut offset = 0;
    let mut rest = bytes;
    'pieces: while !rest.is_empty() {
        let piece = match piece_of(rest) {
            Ok(piece) => piece,
            Err(Stop { cause, at }) => {
                return Some(Stop {
                    cause,
                    at: offset + at,
                });
            }
        };
        let (_, after) = rest.split_at(piece.len);
        offset += piece.len;
        rest = after;
    }
    None
}

// The fault of bytes that stop to be UTF-8 at an offset.
fn ill_formed(file: u32, bytes: &[u8], at: usize) -> LexFault
    requires bound { length bytes.now ≤ 1048576 }
    requires ill { IsValidUpTo bytes.now at }
    ensures { Outcome file bytes.now (Err result) }
{
    match stop_of(bytes) {
        Some(stop) if stop.at < at => fault_at(stop.cause, place_of(file, bytes, stop.at)),
        _ => fault_at(Cause::BadByte, place_of(file, bytes, at)),
    }
}

// The tokens of bytes that are UTF-8, piece by piece.
fn scan_tokens(alloc: Global, file: u32, bytes: &[u8]) -> Result<List<Token>, LexFault>
    requires bound { length bytes.now ≤ 1048576 }
    requires utf8 { IsUtf8 bytes.now }
    ensures { Answers result (Outcome file bytes.now) }
{
    let mut found = List::new(alloc);
    let mut place = Place::start(file);
    let mut offset = 0;
    let mut rest = bytes;
    'pieces: while !rest.is_empty() {
        let piece = match piece_of(rest) {
            Ok(piece) => piece,
            Err(Stop { cause, at }) => {
                return Err(fault_at(cause, place_of(file, bytes, offset + at)));
            }
        };
        let (text, after) = rest.split_at(piece.len);
        put(alloc, &mut found, place, piece.kind, text)?;
        place = place.after(text);
        offset += piece.len;
        rest = after;
    }
    Ok(found)
}

/// The tokens of the bytes, or the first fault in them.
pub(crate) fn scan(alloc: Global, file: u32, bytes: &[u8]) -> Result<List<Token>, LexFault>
    requires { length bytes.now ≤ 1048576 }
    ensures { Answers result (Outcome file bytes.now) }
{
    match ill_formed_at(bytes) {
        None => scan_tokens(alloc, file, bytes),
        Some(at) => Err(ill_formed(file, bytes, at)),
    }
}
