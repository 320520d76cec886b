//! The signs of typestate files, and the words that they reserve.
//! What is none of them is a name.

ghost use Rattle.std.specs.Prelude.{◌≡◌};
ghost use Rattle.ts_parse.specs.Tok.{typestates, sign_of, reserved};

use crate::Mark;

// The bytes that are signs.
pub(crate) fn signs() -> &'static [u8]
    ensures { result.now ≡ typestates.signs }
{
    b"{}()<>=,:;.*"
}

// The mark that a byte is, if it is a sign.
pub(crate) fn sign_of(byte: u8) -> Option<Mark>
    ensures { result ≡ sign_of byte }
{
    match byte {
        b'{' => Some(Mark::OpenBrace),
        b'}' => Some(Mark::CloseBrace),
        b'(' => Some(Mark::OpenParen),
        b')' => Some(Mark::CloseParen),
        b'<' => Some(Mark::Less),
        b'>' => Some(Mark::Greater),
        b'=' => Some(Mark::Equals),
        b',' => Some(Mark::Comma),
        b':' => Some(Mark::Colon),
        b';' => Some(Mark::Semicolon),
        b'.' => Some(Mark::Dot),
        b'*' => Some(Mark::Star),
        _ => None,
    }
}

// The mark that a word is, if it is reserved.
pub(crate) fn reserved(text: &[u8]) -> Option<Mark>
    ensures { result ≡ reserved text.now }
{
    if text == b"typestate".as_slice() {
        Some(Mark::Typestate)
    } else if text == b"package".as_slice() {
        Some(Mark::Package)
    } else if text == b"import".as_slice() {
        Some(Mark::Import)
    } else {
        None
    }
}
