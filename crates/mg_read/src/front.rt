//! The piece at the front of a text: a gap between tokens, a word, a text between quotes or a sign.
//! A language brings its signs, and whether it has texts; names, blanks and comments are the same in all.

ghost use Rattle.std.specs.Prelude.{◌≡◌, ◌<◌, ◌≤◌, length, option_map, IfSome, IfOk, MatchOption};
ghost use Rattle.std.specs.Str.{IsAscii, IsUtf8, IsValidUpTo};
ghost use Rattle.mg_read.specs.Letters.{is_blank, is_name_start, is_name_byte, is_quotable, not_line_end};
ghost use Rattle.mg_read.specs.Passes.{span};
ghost use Rattle.mg_read.specs.Pieces.{is_sign};
ghost use Rattle.mg_read.specs.inner.Fronts.{is_close, close_at, comment_at, word_at, quote_at, piece_at, shows, first_of};

use mg_text::{Memory, Text};
use std::alloc::Global;

/// What a piece at the front of a text is.
#[derive(Clone, Copy)]
pub enum PieceKind {
    /// A blank or a comment.
    Gap,
    /// A name, or a word that the language reserves.
    Word,
    /// A text between quotes.
    Quote,
    /// A byte that is a sign.
    Sign(u8),
}

/// The piece at the front of a text.
#[derive(Clone, Copy)]
pub struct FrontPiece {
    /// What it is.
    pub kind: PieceKind,
    /// Its length in bytes, quotes and the marks of a comment counted.
    pub len: usize,
}

const NAME_LIMIT: usize = 255;

fn is_blank(byte: u8) -> bool
    ensures { result ≡ is_blank byte }
{
    byte == b' ' || byte == b'\t' || byte == b'\n' || byte == b'\r'
}

fn is_name_start(byte: u8) -> bool
    ensures { result ≡ is_name_start byte }
{
    byte.is_ascii_alphabetic() || byte == b'_'
}

fn is_name_byte(byte: u8) -> bool
    ensures { result ≡ is_name_byte byte }
{
    is_name_start(byte) || byte.is_ascii_digit()
}

fn is_quotable(byte: u8) -> bool
    ensures { result ≡ is_quotable byte }
{
    31 < byte && byte < 127 && byte != b'"'
}

fn is_in_line(byte: u8) -> bool
    ensures { result ≡ not_line_end byte }
{
    byte != b'\n'
}

fn is_sign(signs: &[u8], byte: u8) -> bool
    ensures { result ≡ is_sign signs.now byte }
{
    signs.contains(&byte)
}

/// How many bytes at the front may stand in a name.
pub fn name_len(bytes: &[u8]) -> usize
    ensures value { result ≡ span is_name_byte bytes.now }
    ensures within { result ≤ length bytes.now }
{
    bytes.iter().take_while(|byte| is_name_byte(**byte)).count()
}

/// How many bytes stand before the first line feed.
pub fn line_len(bytes: &[u8]) -> usize
    ensures value { result ≡ span not_line_end bytes.now }
    ensures within { result ≤ length bytes.now }
{
    bytes.iter().take_while(|byte| is_in_line(**byte)).count()
}

fn quotable_len(bytes: &[u8]) -> usize
    ensures value { result ≡ span is_quotable bytes.now }
    ensures within { result ≤ length bytes.now }
{
    bytes.iter().take_while(|byte| is_quotable(**byte)).count()
}

fn is_close(bytes: &[u8]) -> bool
    ensures { result ≡ is_close bytes.now }
{
    match bytes {
        [first, second, ..] => *first == b'*' && *second == b'/',
        _ => false,
    }
}

// Where the first "*/" begins.
fn close_of(bytes: &[u8]) -> Option<usize>
    ensures place { result ≡ close_at bytes.now }
    ensures within { IfSome result (λ n. n < length bytes.now) }
{
    let mut n = 0;
    let mut rest = bytes;
    'bytes: while let Some((_, after)) = rest.split_first() {
        if is_close(rest) {
            return Some(n);
        }
        n += 1;
        rest = after;
    }
    None
}

/// The comment at the front, whose first "/" stands before the bytes. There is none where the
/// bytes go on with something else, or where "*/" is missing.
pub fn comment_of(bytes: &[u8]) -> Option<FrontPiece>
    ensures { result ≡ option_map shows (comment_at bytes.now) }
{
    match bytes {
        [b'/', rest @ ..] => Some(FrontPiece {
            kind: PieceKind::Gap,
            len: line_len(rest) + 2,
        }),
        [b'*', rest @ ..] => match close_of(rest) {
            Some(n) => Some(FrontPiece {
                kind: PieceKind::Gap,
                len: n + 4,
            }),
            None => None,
        },
        _ => None,
    }
}

// The word at the front, which is no longer than a name may be.
fn word_of(bytes: &[u8]) -> Option<FrontPiece>
    ensures { result ≡ option_map shows (word_at bytes.now) }
{
    let len = name_len(bytes);
    if len > NAME_LIMIT {
        return None;
    }
    Some(FrontPiece {
        kind: PieceKind::Word,
        len,
    })
}

// The quoted text at the front, whose first quote stands before the bytes.
fn quote_of(bytes: &[u8]) -> Option<FrontPiece>
    ensures { result ≡ option_map shows (quote_at bytes.now) }
{
    let len = quotable_len(bytes);
    let (_, rest) = bytes.split_at(len);
    match rest {
        [b'"', ..] => Some(FrontPiece {
            kind: PieceKind::Quote,
            len: len + 2,
        }),
        _ => None,
    }
}

/// The piece at the front of the bytes, in a language with these signs. None comes exactly where
/// no piece may stand there.
pub fn piece_of(signs: &[u8], has_texts: bool, bytes: &[u8]) -> Option<FrontPiece>
    ensures { result ≡ option_map shows (piece_at (record { signs = signs.now; has_texts = has_texts }) bytes.now) }
{
    let (first, rest) = bytes.split_first()?;
    if is_blank(*first) {
        return Some(FrontPiece {
            kind: PieceKind::Gap,
            len: 1,
        });
    }
    if is_name_start(*first) {
        return word_of(bytes);
    }
    if *first == b'/' {
        return comment_of(rest);
    }
    if has_texts && *first == b'"' {
        return quote_of(rest);
    }
    if is_sign(signs, *first) {
        return Some(FrontPiece {
            kind: PieceKind::Sign(*first),
            len: 1,
        });
    }
    None
}

/// The text of these bytes, which are ASCII.
pub fn ascii_text(alloc: Global, bytes: &[u8]) -> Result<Text, Memory>
    requires { IsAscii bytes.now }
    ensures { IfOk result (λ t. t ≡ bytes.now) }
{
    let text = std::str::from_utf8(bytes).unwrap();
    Text::of(alloc, text)
}

/// Where the bytes stop to be UTF-8, if they do: the first byte of the first sequence that is none.
pub fn ill_formed_at(bytes: &[u8]) -> Option<usize>
    ensures { MatchOption result (IsUtf8 bytes.now) (λ k. IsValidUpTo bytes.now k) }
{
    match std::str::from_utf8(bytes) {
        Ok(_) => None,
        Err(error) => Some(error.valid_up_to()),
    }
}

/// The first of an offset and, where there is one, another.
pub fn first_of(offset: usize, other: Option<usize>) -> usize
    ensures { result ≡ first_of offset other }
{
    match other {
        None => offset,
        Some(other) => offset.min(other),
    }
}
