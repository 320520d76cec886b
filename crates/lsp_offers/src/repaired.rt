//! A text in which a call stands where a method is being typed.

ghost use Rattle.std.specs.Prelude.{◌≡◌, ◌≤◌, ◌<◌, ◌+◌, ◌^◌, IfOk, length};
ghost use Rattle.lsp_offers.specs.Repaired.{open_behind, closing, behind_word, behind_arguments, behind_semicolon};
ghost use Rattle.lsp_offers.specs.Repaired.{behind_call, ending, replaced, repaired};

use crate::attempts::{Attempt, Form};
use crate::spots::{Spot, word_len};
use mg_text::{Bytes, Memory};
use std::alloc::Global;

// How many parentheses are open behind a byte, where so many are before it.
fn open_behind(opened: usize, byte: u8) -> usize
    requires { opened + 1 < 2 ^ 64 }
    ensures value { result ≡ open_behind opened byte }
    ensures within { result ≤ opened + 1 }
{
    match byte {
        b'(' => opened + 1,
        b')' => opened.saturating_sub(1),
        _ => opened,
    }
}

// What stands behind the parenthesis that closes the one before these bytes.
#[tactic(auto, using(crate::proofs::Closing::closing_more))]
fn closing(bytes: &[u8]) -> &[u8]
    ensures { result.now ≡ closing 1 bytes.now }
{
    let mut opened = 1;
    for (index, byte) in bytes.iter().enumerate() {
        opened = open_behind(opened, *byte);
        if opened == 0 {
            return &bytes[index + 1..];
        }
    }
    &bytes[bytes.len()..]
}

// What stands behind the word in front.
fn behind_word(bytes: &[u8]) -> &[u8]
    ensures { result.now ≡ behind_word bytes.now }
{
    &bytes[word_len(bytes)..]
}

// What stands behind the arguments in front, where some do.
fn behind_arguments(bytes: &[u8]) -> &[u8]
    ensures { result.now ≡ behind_arguments bytes.now }
{
    match bytes {
        [b'(', more @ ..] => closing(more),
        _ => bytes,
    }
}

// What stands behind the semicolon in front, where one does.
fn behind_semicolon(bytes: &[u8]) -> &[u8]
    ensures { result.now ≡ behind_semicolon bytes.now }
{
    match bytes {
        [b';', more @ ..] => more,
        _ => bytes,
    }
}

// What stands behind a call whose name is typed in front.
fn behind_call(form: Form, bytes: &[u8]) -> &[u8]
    ensures { result.now ≡ behind_call form bytes.now }
{
    let behind = behind_arguments(behind_word(bytes));
    match form {
        Form::Standing => bytes,
        Form::Statement => behind_semicolon(behind),
        Form::Value => behind,
    }
}

// How a call ends.
fn ending(form: Form) -> &'static str
    ensures { result.now ≡ ending form }
{
    match form {
        Form::Statement => ";",
        Form::Standing | Form::Value => "",
    }
}

// The text with a call in place of what is typed at a spot, up to an offset and behind it.
fn replaced(
    alloc: Global,
    text: &[u8],
    spot: Spot,
    offset: usize,
    attempt: &Attempt,
) -> Result<Bytes, Memory>
    requires dot { spot.dot < length text.now }
    requires offset { offset ≤ length text.now }
    ensures { IfOk result (λ b. b ≡ replaced text.now spot offset attempt.now) }
{
    let mut bytes = Bytes::of(alloc, &text[..spot.dot + 1])?;
    bytes.extend(attempt.call.as_str().as_bytes())?;
    bytes.extend(ending(attempt.form).as_bytes())?;
    bytes.extend(behind_call(attempt.form, &text[offset..]))?;
    Ok(bytes)
}

/// The text in which a call is tried at a spot, up to an offset and behind it: as it stands, or with the call in place of
/// what is typed there.
///
/// # Errors
/// `Memory` only.
pub(crate) fn repaired(
    alloc: Global,
    text: &[u8],
    spot: Spot,
    offset: usize,
    attempt: &Attempt,
) -> Result<Bytes, Memory>
    requires dot { spot.dot < length text.now }
    requires offset { offset ≤ length text.now }
    ensures { IfOk result (λ b. b ≡ repaired text.now spot offset attempt.now) }
{
    match attempt.form {
        Form::Standing => Bytes::of(alloc, text),
        Form::Statement => replaced(alloc, text, spot, offset, attempt),
        Form::Value => replaced(alloc, text, spot, offset, attempt),
    }
}
