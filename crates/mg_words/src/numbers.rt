//! The number that a word names.

ghost use Rattle.std.specs.Prelude.{◌<◌, ◌^◌, ◌↔◌, IsTrue};
ghost use Rattle.mg_words.specs.inner.Judging.{IsNumber, IsUpTo, StartsNumber};

use crate::names::is_word;
use mg_text::Text;

/// The number that a word names: decimal, with neither a sign nor a 0 in front of other digits, and
/// below 2^64.
pub fn number_of(word: &Text) -> Option<u64>
    ensures { IsNumber word.now result }
{
    if is_word(word, "0") {
        return Some(0);
    }
    let text = word.as_str();
    if !starts_number(text.as_bytes()) {
        return None;
    }
    match text.parse::<u64>() {
        Err(_) => None,
        Ok(number) => Some(number),
    }
}

/// The same of a number from 1 to this.
pub fn number_up_to(word: &Text, most: u32) -> Option<u32>
    ensures { IsUpTo most word.now result }
{
    match number_of(word) {
        None => None,
        Some(number) => {
            if number == 0 {
                return None;
            }
            if number <= u64::from(most) {
                Some(number as u32)
            } else {
                None
            }
        }
    }
}

// Whether the first byte is a digit other than 0.
fn starts_number(bytes: &[u8]) -> bool
    ensures { IsTrue result ↔ StartsNumber bytes.now }
{
    match bytes {
        [] => false,
        [first, ..] => b'1' <= *first && *first <= b'9',
    }
}
