//! Texts in modified UTF-8, from the bytes of a class file (JVMS 4.4.7).
//! Forms that are longer than they must be, the byte 0 and lone surrogates are no text.

ghost use Rattle.std.specs.Prelude.{◌≡◌, ◌≤◌, ◌<◌, true};
ghost use Rattle.std.specs.List.{list_all};
ghost use Rattle.mg_read.specs.Reader.{Gives};
ghost use Rattle.cls_layout.specs.Letters.{is_tail, is_high, is_low, two_at, three_at, unit_at, second_at, char_at, letters, is_plain};

use mg_read::ReadError;
use mg_text::Text;
use std::alloc::Global;

/// Whether a byte goes on a unit.
fn goes_on(byte: u8) -> bool
    ensures { result ≡ is_tail byte }
{
    (0x80..0xc0).contains(&byte)
}

/// A unit of two bytes, behind the first of them.
#[tactic(auto, unfolding(crate::specs::Letters::two_at))]
fn two_of(first: u8, bytes: &[u8]) -> Result<(u16, &[u8]), ReadError>
    requires low { 192 ≤ first }
    requires high { first < 224 }
    ensures { Gives (λ x. (x.0, x.1.now)) result (two_at first bytes.now) }
{
    let [second, rest @ ..] = bytes else {
        return Err(ReadError::Syntax);
    };
    if !goes_on(*second) {
        return Err(ReadError::Syntax);
    }
    let unit = (first as u16 - 0xc0) * 64 + (*second as u16 - 0x80);
    if 0 < unit && unit < 128 {
        return Err(ReadError::Syntax);
    }
    Ok((unit, rest))
}

/// A unit of three bytes, behind the first of them.
#[tactic(auto, unfolding(crate::specs::Letters::three_at))]
fn three_of(first: u8, bytes: &[u8]) -> Result<(u16, &[u8]), ReadError>
    requires low { 224 ≤ first }
    requires high { first < 240 }
    ensures { Gives (λ x. (x.0, x.1.now)) result (three_at first bytes.now) }
{
    let [second, third, rest @ ..] = bytes else {
        return Err(ReadError::Syntax);
    };
    if !goes_on(*second) || !goes_on(*third) {
        return Err(ReadError::Syntax);
    }
    let unit = (first as u16 - 0xe0) * 4096 + (*second as u16 - 0x80) * 64 + (*third as u16 - 0x80);
    if unit < 2048 {
        return Err(ReadError::Syntax);
    }
    Ok((unit, rest))
}

/// A unit of one to three bytes.
#[tactic(auto, unfolding(crate::specs::Letters::unit_at))]
fn unit_of(bytes: &[u8]) -> Result<(u16, &[u8]), ReadError>
    ensures { Gives (λ x. (x.0, x.1.now)) result (unit_at bytes.now) }
{
    let [first, rest @ ..] = bytes else {
        return Err(ReadError::Syntax);
    };
    let first = *first;
    if first < 0x80 {
        if first == 0 {
            return Err(ReadError::Syntax);
        }
        return Ok((first as u16, rest));
    }
    if first < 0xc0 || first >= 0xf0 {
        return Err(ReadError::Syntax);
    }
    if first < 0xe0 {
        two_of(first, rest)
    } else {
        three_of(first, rest)
    }
}

/// The character whose second surrogate follows the first.
#[tactic(auto, unfolding(crate::specs::Letters::second_at))]
fn second_of(high: u16, bytes: &[u8]) -> Result<(u32, &[u8]), ReadError>
    requires high { is_high high ≡ true }
    ensures { Gives (λ x. (x.0, x.1.now)) result (second_at high bytes.now) }
{
    let (low, rest) = unit_of(bytes)?;
    if !(0xdc00..0xe000).contains(&low) {
        return Err(ReadError::Syntax);
    }
    let code = 0x1_0000 + (high as u32 - 0xd800) * 1024 + (low as u32 - 0xdc00);
    Ok((code, rest))
}

/// The number of the character at the front.
#[tactic(auto, unfolding(crate::specs::Letters::char_at))]
fn code_of(bytes: &[u8]) -> Result<(u32, &[u8]), ReadError>
    ensures { Gives (λ x. (x.0, x.1.now)) result (char_at bytes.now) }
{
    let (unit, rest) = unit_of(bytes)?;
    if (0xd800..0xdc00).contains(&unit) {
        return second_of(unit, rest);
    }
    if (0xdc00..0xe000).contains(&unit) {
        return Err(ReadError::Syntax);
    }
    Ok((unit as u32, rest))
}

/// The character at the front.
fn char_of(bytes: &[u8]) -> Result<(char, &[u8]), ReadError>
    ensures { Gives (λ x. (x.0, x.1.now)) result (char_at bytes.now) }
{
    let (code, rest) = code_of(bytes)?;
    match char::from_u32(code) {
        Some(character) => Ok((character, rest)),
        None => unreachable!(),
    }
}

/// Whether a byte is a character of its own.
fn is_plain(byte: u8) -> bool
    ensures { result ≡ is_plain byte }
{
    0 < byte && byte < 0x80
}

/// Whether each byte is.
fn are_plain(bytes: &[u8]) -> bool
    ensures { result ≡ list_all is_plain bytes.now }
{
    bytes.iter().all(|byte| is_plain(*byte))
}

/// The text of bytes that are characters of their own.
#[tactic(auto, using(crate::proofs::Plain::plain_letters))]
fn plain_text(alloc: Global, bytes: &[u8]) -> Result<Text, ReadError>
    requires { list_all is_plain bytes.now ≡ true }
    ensures { Gives (λ t. t) result (letters bytes.now) }
{
    let text = std::str::from_utf8(bytes).unwrap();
    Ok(Text::of(alloc, text)?)
}

/// The text that all of the bytes spell, character by character.
#[tactic(auto, unfolding(crate::specs::Letters::letters))]
fn spelled_text(alloc: Global, bytes: &[u8]) -> Result<Text, ReadError>
    ensures { Gives (λ t. t) result (letters bytes.now) }
{
    let mut text = String::new(alloc);
    let mut rest = bytes;
    'letters: while !rest.is_empty() {
        let (character, after) = char_of(rest)?;
        text.push(character)?;
        rest = after;
    }
    Ok(Text::from_string(text))
}

/// The text that all of the bytes spell.
///
/// # Errors
///
/// `Syntax` where they are no text in modified UTF-8, and `Memory` where memory runs out.
pub fn text_in(alloc: Global, bytes: &[u8]) -> Result<Text, ReadError>
    ensures { Gives (λ t. t) result (letters bytes.now) }
{
    if are_plain(bytes) {
        plain_text(alloc, bytes)
    } else {
        spelled_text(alloc, bytes)
    }
}
