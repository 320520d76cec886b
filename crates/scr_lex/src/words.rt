//! The signs of Scribble, and the words that it reserves.
//! What is none of them is a name.

ghost use Rattle.std.specs.Prelude.{◌≡◌};
ghost use Rattle.scr_lex.specs.Pieces.{scribble};
ghost use Rattle.scr_tree.specs.Words.{sign_of, reserved};
ghost use Rattle.scr_lex.specs.inner.Table.{statement_word};

use scr_tree::Mark;

// The bytes that are signs.
pub(crate) fn signs() -> &'static [u8]
    ensures { result.now ≡ scribble.signs }
{
    b"(){}<>,;."
}

// The mark that a byte is, if it is a sign.
pub(crate) fn sign_of(byte: u8) -> Option<Mark>
    ensures { result ≡ sign_of byte }
{
    match byte {
        b'(' => Some(Mark::OpenParen),
        b')' => Some(Mark::CloseParen),
        b'{' => Some(Mark::OpenBrace),
        b'}' => Some(Mark::CloseBrace),
        b'<' => Some(Mark::Less),
        b'>' => Some(Mark::Greater),
        b',' => Some(Mark::Comma),
        b';' => Some(Mark::Semicolon),
        b'.' => Some(Mark::Dot),
        _ => None,
    }
}

/// The mark that a word is, if it is reserved.
#[tactic(auto, unfolding(scr_tree::specs::Words::reserved))]
pub fn reserved(text: &[u8]) -> Option<Mark>
    ensures { result ≡ reserved text.now }
{
    if text == b"module".as_slice() {
        Some(Mark::Module)
    } else if text == b"type".as_slice() {
        Some(Mark::Type)
    } else if text == b"as".as_slice() {
        Some(Mark::As)
    } else if text == b"from".as_slice() {
        Some(Mark::From)
    } else if text == b"to".as_slice() {
        Some(Mark::To)
    } else if text == b"at".as_slice() {
        Some(Mark::At)
    } else if text == b"local".as_slice() {
        Some(Mark::Local)
    } else if text == b"protocol".as_slice() {
        Some(Mark::Protocol)
    } else if text == b"role".as_slice() {
        Some(Mark::Role)
    } else if text == b"self".as_slice() {
        Some(Mark::Myself)
    } else {
        statement_word(text)
    }
}

// The same of the words that begin or part statements, and of those that aren't supported.
fn statement_word(text: &[u8]) -> Option<Mark>
    ensures { result ≡ statement_word text.now }
{
    if text == b"choice".as_slice() {
        Some(Mark::Choice)
    } else if text == b"or".as_slice() {
        Some(Mark::Or)
    } else if text == b"rec".as_slice() {
        Some(Mark::Rec)
    } else if text == b"continue".as_slice() {
        Some(Mark::Continue)
    } else if text == b"par".as_slice() {
        Some(Mark::Par)
    } else if text == b"interruptible".as_slice() {
        Some(Mark::Interruptible)
    } else if text == b"do".as_slice() {
        Some(Mark::Do)
    } else if text == b"global".as_slice() {
        Some(Mark::Global)
    } else if text == b"import".as_slice() {
        Some(Mark::Import)
    } else if text == b"sig".as_slice() {
        Some(Mark::Sig)
    } else {
        None
    }
}
