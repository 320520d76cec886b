//! The piece at the front of a text: a gap between tokens, a word, a number, a text or a sign.
//! Where none stands, the cause and how many bytes behind the front it stands. Java reads escapes
//! of Unicode before it tells pieces apart, so that none may stand in a comment.

ghost use Rattle.std.specs.Prelude.{◌≡◌, ◌≤◌, ◌<◌, length, false, IfSome};
ghost use Rattle.std.specs.Char.{is_ascii_digit};
ghost use Rattle.std.specs.Str.Parse.{digits_value};
ghost use Rattle.mg_read.specs.Passes.{span, AllPasses};
ghost use Rattle.jv_lex.specs.Letters.{is_blank, is_word_start, is_word_byte, is_number_tail, is_line_end, is_in_line, is_escape};
ghost use Rattle.jv_lex.specs.inner.Front.{closing_at, bad_at, text_at, is_tailed, has_leading_zero, small, number_at, sign_at, slash_at};
ghost use Rattle.jv_lex.specs.inner.Front.{unicode_at, comment_shown, line_at, front_at, shown};

use crate::fault::Cause;
use crate::signs::{pair, single};
use jv_tree::Sign;
use mg_read::comment_of;

/// What a piece at the front of a text is.
#[derive(Clone, Copy)]
pub(crate) enum PieceKind {
    /// A blank or a comment.
    Gap,
    /// A name, or a word that the language reserves.
    Word,
    /// A number.
    Number(u32),
    /// A text between quotes.
    Text,
    /// A sign.
    Sign(Sign),
}

/// The piece at the front of a text.
#[derive(Clone, Copy)]
pub(crate) struct FrontPiece {
    /// What it is.
    pub kind: PieceKind,
    /// Its length in bytes, quotes and the marks of a comment counted.
    pub len: usize,
}

/// Why no piece stands at the front of a text.
#[derive(Clone, Copy)]
pub(crate) struct Stop {
    /// What is wrong.
    pub cause: Cause,
    /// How many bytes behind the front.
    pub at: usize,
}

/// The greatest number, which stands behind a minus only.
const MOST: u32 = 2_147_483_648;

fn is_blank(byte: u8) -> bool
    ensures { result ≡ is_blank byte }
{
    byte == b' ' || byte == b'\t' || byte == b'\n' || byte == b'\r' || byte == b'\x0c'
}

fn is_word_start(byte: u8) -> bool
    ensures { result ≡ is_word_start byte }
{
    byte.is_ascii_alphabetic() || byte == b'_' || byte == b'$'
}

fn is_word_byte(byte: u8) -> bool
    ensures { result ≡ is_word_byte byte }
{
    is_word_start(byte) || byte.is_ascii_digit()
}

fn is_number_tail(byte: u8) -> bool
    ensures { result ≡ is_number_tail byte }
{
    is_word_byte(byte) || byte == b'.'
}

fn is_line_end(byte: u8) -> bool
    ensures { result ≡ is_line_end byte }
{
    byte == b'\n' || byte == b'\r'
}

fn is_in_line(byte: u8) -> bool
    ensures { result ≡ is_in_line byte }
{
    !is_line_end(byte)
}

fn is_escape(byte: u8) -> bool
    ensures { result ≡ is_escape byte }
{
    byte == b'b'
        || byte == b't'
        || byte == b'n'
        || byte == b'f'
        || byte == b'r'
        || byte == b'"'
        || byte == b'\''
        || byte == b'\\'
}

fn word_len(bytes: &[u8]) -> usize
    ensures value { result ≡ span is_word_byte bytes.now }
    ensures within { result ≤ length bytes.now }
{
    bytes.iter().take_while(|byte| is_word_byte(**byte)).count()
}

fn digits_len(bytes: &[u8]) -> usize
    ensures value { result ≡ span is_ascii_digit bytes.now }
    ensures within { result ≤ length bytes.now }
{
    bytes
        .iter()
        .take_while(|byte| byte.is_ascii_digit())
        .count()
}

fn line_len(bytes: &[u8]) -> usize
    ensures value { result ≡ span is_in_line bytes.now }
    ensures within { result ≤ length bytes.now }
{
    bytes.iter().take_while(|byte| is_in_line(**byte)).count()
}

// How many bytes stand before the quote that closes a text on its line.
fn closing_of(bytes: &[u8]) -> Option<usize>
    ensures place { result ≡ closing_at false bytes.now }
    ensures within { IfSome result (λ n. n < length bytes.now) }
{
    let mut after_backslash = false;
    let mut n = 0;
    let mut rest = bytes;
    'bytes: while let Some((byte, after)) = rest.split_first() {
        if is_line_end(*byte) {
            return None;
        }
        if !after_backslash && *byte == b'"' {
            return Some(n);
        }
        after_backslash = !after_backslash && *byte == b'\\';
        n += 1;
        rest = after;
    }
    None
}

// How many bytes stand before the first that follows a backslash and is no escape.
fn bad_escape_of(body: &[u8]) -> Option<usize>
    ensures { result ≡ bad_at false body.now }
{
    let mut after_backslash = false;
    let mut n = 0;
    let mut rest = body;
    'bytes: while let Some((byte, after)) = rest.split_first() {
        if after_backslash && !is_escape(*byte) {
            return Some(n);
        }
        after_backslash = !after_backslash && *byte == b'\\';
        n += 1;
        rest = after;
    }
    None
}

// The text at the front, whose first quote stands before the bytes.
fn text_of(bytes: &[u8]) -> Result<FrontPiece, Stop>
    ensures { result ≡ shown (text_at bytes.now) }
{
    let Some(len) = closing_of(bytes) else {
        return Err(Stop {
            cause: Cause::OpenText,
            at: 0,
        });
    };
    match bad_escape_of(&bytes[..len]) {
        Some(at) => Err(Stop {
            cause: Cause::BadEscape,
            at,
        }),
        None => Ok(FrontPiece {
            kind: PieceKind::Text,
            len: len + 2,
        }),
    }
}

fn is_tailed(bytes: &[u8]) -> bool
    ensures { result ≡ is_tailed bytes.now }
{
    match bytes {
        [first, ..] => is_number_tail(*first),
        [] => false,
    }
}

fn has_leading_zero(digits: &[u8]) -> bool
    ensures { result ≡ has_leading_zero digits.now }
{
    digits.len() > 1 && digits[0] == b'0'
}

fn at_most(value: u32) -> Option<u32>
    ensures { result ≡ small value }
{
    if value > MOST {
        return None;
    }
    Some(value)
}

// The number that digits are, if it isn't too great.
fn value_of(digits: &[u8]) -> Option<u32>
    requires passes { AllPasses is_ascii_digit digits.now }
    requires some { 0 < length digits.now }
    ensures { result ≡ small (digits_value 10 digits.now) }
{
    let text = std::str::from_utf8(digits).unwrap();
    match text.parse::<u32>() {
        Ok(value) => at_most(value),
        Err(_) => None,
    }
}

// The number at the front, which begins with a digit.
fn number_of(bytes: &[u8]) -> Result<FrontPiece, Stop>
    requires { 0 < span is_ascii_digit bytes.now }
    ensures { result ≡ shown (number_at bytes.now) }
{
    let len = digits_len(bytes);
    let (digits, after) = bytes.split_at(len);
    let bad = Stop {
        cause: Cause::BadNumber,
        at: 0,
    };
    if is_tailed(after) || has_leading_zero(digits) {
        return Err(bad);
    }
    match value_of(digits) {
        Some(value) => Ok(FrontPiece {
            kind: PieceKind::Number(value),
            len,
        }),
        None => Err(bad),
    }
}

// The longest sign at the front, which begins with this byte.
fn sign_of(first: u8, rest: &[u8]) -> Result<FrontPiece, Stop>
    ensures { result ≡ shown (sign_at first rest.now) }
{
    let Some(sign) = single(first) else {
        return Err(Stop {
            cause: Cause::BadByte,
            at: 0,
        });
    };
    if let [second, ..] = rest {
        if let Some(longer) = pair(sign, first, *second) {
            return Ok(FrontPiece {
                kind: PieceKind::Sign(longer),
                len: 2,
            });
        }
    }
    Ok(FrontPiece {
        kind: PieceKind::Sign(sign),
        len: 1,
    })
}

// How many bytes stand before the "u" of the first escape of Unicode.
fn unicode_of(body: &[u8]) -> Option<usize>
    ensures place { result ≡ unicode_at false body.now }
    ensures within { IfSome result (λ n. n < length body.now) }
{
    let mut after_backslash = false;
    let mut n = 0;
    let mut rest = body;
    'bytes: while let Some((byte, after)) = rest.split_first() {
        if after_backslash && *byte == b'u' {
            return Some(n);
        }
        after_backslash = !after_backslash && *byte == b'\\';
        n += 1;
        rest = after;
    }
    None
}

// The comment of this body and length, unless an escape of Unicode begins in it.
fn comment_with(body: &[u8], len: usize) -> Result<FrontPiece, Stop>
    ensures { result ≡ comment_shown len (unicode_at false body.now) }
{
    match unicode_of(body) {
        Some(n) => Err(Stop {
            cause: Cause::BadByte,
            at: n + 1,
        }),
        None => Ok(FrontPiece {
            kind: PieceKind::Gap,
            len,
        }),
    }
}

// The comment to the end of its line, whose "//" stands before the bytes.
fn line_of(bytes: &[u8]) -> Result<FrontPiece, Stop>
    ensures { result ≡ shown (line_at bytes.now) }
{
    let len = line_len(bytes);
    comment_with(&bytes[..len], len + 2)
}

// The comment or the sign at the front, whose "/" stands before the bytes.
fn slash_of(rest: &[u8]) -> Result<FrontPiece, Stop>
    ensures { result ≡ shown (slash_at rest.now) }
{
    match rest {
        [b'/', bytes @ ..] => line_of(bytes),
        [b'*', bytes @ ..] => match comment_of(rest) {
            Some(comment) => comment_with(&bytes[..comment.len - 4], comment.len),
            None => Err(Stop {
                cause: Cause::OpenComment,
                at: 0,
            }),
        },
        _ => sign_of(b'/', rest),
    }
}

/// The piece at the front of the bytes.
///
/// # Errors
/// The cause and how far behind the front it stands, exactly where no piece may stand there.
pub(crate) fn piece_of(bytes: &[u8]) -> Result<FrontPiece, Stop>
    ensures { result ≡ shown (front_at bytes.now) }
{
    let Some((first, rest)) = bytes.split_first() else {
        return Err(Stop {
            cause: Cause::BadByte,
            at: 0,
        });
    };
    if is_blank(*first) {
        return Ok(FrontPiece {
            kind: PieceKind::Gap,
            len: 1,
        });
    }
    if is_word_start(*first) {
        return Ok(FrontPiece {
            kind: PieceKind::Word,
            len: word_len(bytes),
        });
    }
    if first.is_ascii_digit() {
        return number_of(bytes);
    }
    match *first {
        b'"' => text_of(rest),
        b'/' => slash_of(rest),
        _ => sign_of(*first, rest),
    }
}
