//! Numbers and runs of bytes, read at a place of the file.
//! Each function gives a value and the place behind it.

ghost use Rattle.std.specs.Prelude.{◌≡◌, ◌≤◌, drop, take, length};
ghost use Rattle.jcf_read.specs.Answer.{Gives};
ghost use Rattle.jcf_read.specs.Front.{front_of, number_at, run_at};

use crate::fault::{Fault, FaultKind, ReadError};
use byteorder::{BigEndian, ByteOrder};
use jcf_code::tail;

/// The bytes of a file, or those up to the end of an attribute, and what a field is in which they end.
#[derive(Clone, Copy)]
pub(crate) struct Front<'a> {
    pub bytes: &'a [u8],
    pub cut: FaultKind,
}

/// This is wrong at this place.
pub(crate) fn wrong(kind: FaultKind, offset: usize) -> ReadError
    ensures { result ≡ ReadError.Wrong (record { kind = kind; offset = offset }) }
{
    ReadError::Wrong(Fault { kind, offset })
}

/// A number of one byte.
#[tactic(auto, unfolding(crate::specs::Front::number_at))]
pub(crate) fn u1_at(front: Front, at: usize) -> Result<(u8, usize), ReadError>
    ensures { Gives (λ x. x) result (number_at 1 (front_of front.entry) at) }
{
    let rest = tail(front.bytes, at);
    if rest.is_empty() {
        return Err(wrong(front.cut, at));
    }
    Ok((rest[0], at + 1))
}

/// A number of two bytes.
#[tactic(auto, unfolding(crate::specs::Front::number_at))]
pub(crate) fn u2_at(front: Front, at: usize) -> Result<(u16, usize), ReadError>
    ensures { Gives (λ x. x) result (number_at 2 (front_of front.entry) at) }
{
    let rest = tail(front.bytes, at);
    if rest.len() < 2 {
        return Err(wrong(front.cut, at));
    }
    Ok((BigEndian::read_u16(rest), at + 2))
}

/// A number of four bytes.
#[tactic(auto, unfolding(crate::specs::Front::number_at))]
pub(crate) fn u4_at(front: Front, at: usize) -> Result<(u32, usize), ReadError>
    ensures { Gives (λ x. x) result (number_at 4 (front_of front.entry) at) }
{
    let rest = tail(front.bytes, at);
    if rest.len() < 4 {
        return Err(wrong(front.cut, at));
    }
    Ok((BigEndian::read_u32(rest), at + 4))
}

/// So many bytes.
#[tactic(auto, unfolding(crate::specs::Front::run_at))]
pub(crate) fn run_of<'a>(
    front: Front<'a>,
    at: usize,
    length: usize,
) -> Result<(&'a [u8], usize), ReadError>
    ensures { Gives (λ x. (x.0.now, x.1)) result (run_at length (front_of front.entry) at) }
{
    let rest = tail(front.bytes, at);
    if rest.len() < length {
        return Err(wrong(front.cut, at));
    }
    Ok((&rest[..length], at + length))
}
