//! Numbers in a rest of some bytes, of which those that aren't there are 0.

ghost use Rattle.std.specs.Prelude.{◌≡◌, drop, get_or};
ghost use Rattle.jcf_code.specs.Bytes.{number};

use byteorder::{BigEndian, ByteOrder};

/// The bytes from a place on.
pub fn tail(bytes: &[u8], at: usize) -> &[u8]
    ensures { result.now ≡ drop at bytes.now }
{
    if at <= bytes.len() { &bytes[at..] } else { &[] }
}

/// A byte, or 0 where there is none.
pub fn byte_of(bytes: &[u8], index: usize) -> u8
    ensures { result ≡ get_or bytes.now index 0 }
{
    if index < bytes.len() { bytes[index] } else { 0 }
}

/// A number of two bytes, or 0 where they aren't there.
#[tactic(auto, unfolding(crate::specs::Bytes::number))]
pub fn u2_in(bytes: &[u8]) -> u16
    ensures { result ≡ number 2 bytes.now }
{
    if bytes.len() < 2 {
        0
    } else {
        BigEndian::read_u16(bytes)
    }
}

/// A number of four bytes, or 0 where they aren't there.
#[tactic(auto, unfolding(crate::specs::Bytes::number))]
pub fn u4_in(bytes: &[u8]) -> u32
    ensures { result ≡ number 4 bytes.now }
{
    if bytes.len() < 4 {
        0
    } else {
        BigEndian::read_u32(bytes)
    }
}
