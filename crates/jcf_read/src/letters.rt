//! Modified UTF-8 (JVMS 4.4.7): units of one to three bytes, none longer than it must be, and no byte 0.
//! A unit is one of UTF-16, so surrogates may stand alone.

ghost use Rattle.std.specs.Prelude.{◌≡◌, get_or};
ghost use Rattle.jcf_read.specs.Letters.{is_one, are_two, are_three, is_modified};
ghost use Rattle.jcf_read.specs.inner.Units.{unit_of};

use jcf_code::{byte_of, tail};

/// Whether a byte is a unit: 1 to 127.
fn is_one(first: u8) -> bool
    ensures { result ≡ is_one first }
{
    (0x01..0x80).contains(&first)
}

/// Whether two bytes are a unit: 0, or 128 to 2047.
fn are_two(first: u8, second: u8) -> bool
    ensures { result ≡ are_two first second }
{
    (first == 0xc0 && second == 0x80)
        || ((0xc2..0xe0).contains(&first) && (0x80..0xc0).contains(&second))
}

/// Whether three bytes are a unit: 2048 to 65535.
fn are_three(first: u8, second: u8, third: u8) -> bool
    ensures { result ≡ are_three first second third }
{
    let begins = (first == 0xe0 && (0xa0..0xc0).contains(&second))
        || ((0xe1..0xf0).contains(&first) && (0x80..0xc0).contains(&second));
    begins && (0x80..0xc0).contains(&third)
}

/// How many bytes the unit at the front takes.
fn unit_at(bytes: &[u8]) -> Option<usize>
    ensures { result ≡ unit_of (get_or bytes.now 0 0) (get_or bytes.now 1 0) (get_or bytes.now 2 0) }
{
    let first = byte_of(bytes, 0);
    let second = byte_of(bytes, 1);
    if is_one(first) {
        Some(1)
    } else if are_two(first, second) {
        Some(2)
    } else if are_three(first, second, byte_of(bytes, 2)) {
        Some(3)
    } else {
        None
    }
}

/// Whether bytes are a text in modified UTF-8.
#[tactic(auto, unfolding(crate::specs::Letters::is_modified))]
pub(crate) fn is_modified(bytes: &[u8]) -> bool
    ensures { result ≡ is_modified bytes.now }
{
    let mut rest = bytes;
    while !rest.is_empty() {
        match unit_at(rest) {
            Some(size) => rest = tail(rest, size),
            None => return false,
        }
    }
    true
}
