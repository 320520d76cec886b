//! What is wrong with a code that can be laid out: numbers of constants, and jumps.

ghost use Rattle.std.specs.Prelude.{◌≡◌, ◌<◌, ◌≤◌, ◌^◌, length};
ghost use Rattle.jcf_read.specs.Answer.{Gives};
ghost use Rattle.jcf_read.specs.Pool.{pool_of};
ghost use Rattle.jcf_read.specs.Jumps.{misses, strays, are_straying, named_in, is_misnaming, table_strays};
ghost use Rattle.jcf_read.specs.Jumps.{lookup_strays, is_straying, kind_of, judged, first_fault, checked};

use crate::fault::{Fault, FaultKind, ReadError};
use crate::pool::{Pool, is_wrong};
use jcf_code::{CodeFault, byte_of, laid_out, marks_of, pad, table_length, tail, u2_in, u4_in};
use jcf_effects::Operands;
use jcf_tree::Kind;
use std::alloc::Global;

/// Whether a place is known to be neither the beginning of an instruction nor the code's end.
#[tactic(auto, unfolding(crate::specs::Jumps::misses))]
pub(crate) fn misses(marks: &[bool], length: usize, place: usize) -> bool
    ensures { result ≡ misses marks.now length place }
{
    if place > length {
        return true;
    }
    place < marks.len() && !marks[place]
}

/// Whether a jump from a place misses, whose distance is this number, from `half` on a negative one.
#[tactic(auto, unfolding(crate::specs::Jumps::strays))]
fn strays(marks: &[bool], length: usize, place: usize, distance: u32, half: u32) -> bool
    requires place { place < 2 ^ 63 }
    requires half { half < 2 ^ 32 }
    ensures { result ≡ strays marks.now length place distance half }
{
    if distance < half {
        return misses(marks, length, place + distance as usize);
    }
    let back = (2 * half as usize).saturating_sub(distance as usize);
    if place < back {
        return true;
    }
    misses(marks, length, place - back)
}

/// Whether one of so many jumps from a place misses, whose distances stand in these bytes, `step` bytes apart.
#[tactic(auto, unfolding(crate::specs::Jumps::are_straying))]
fn are_straying(
    marks: &[bool],
    length: usize,
    place: usize,
    step: usize,
    count: usize,
    bytes: &[u8],
) -> bool
    requires { place < 2 ^ 63 }
    ensures { result ≡ are_straying marks.now length place step count bytes.now }
{
    let mut rest = bytes;
    for _ in 0..count {
        if strays(marks, length, place, u4_in(rest), 0x8000_0000) {
            return true;
        }
        rest = tail(rest, step);
    }
    false
}

/// Whether a `tableswitch` at a place has a jump that misses.
#[tactic(auto, unfolding(crate::specs::Jumps::table_strays))]
fn table_strays(marks: &[bool], length: usize, place: usize, rest: &[u8]) -> bool
    requires { place < 2 ^ 63 }
    ensures { result ≡ table_strays marks.now length place rest.now }
{
    let front = tail(rest, 1 + pad(place));
    let count = table_length(tail(front, 4)).unwrap_or(0);
    strays(marks, length, place, u4_in(front), 0x8000_0000)
        || are_straying(marks, length, place, 4, count, tail(front, 12))
}

/// Whether a `lookupswitch` at a place has a jump that misses.
#[tactic(auto, unfolding(crate::specs::Jumps::lookup_strays))]
fn lookup_strays(marks: &[bool], length: usize, place: usize, rest: &[u8]) -> bool
    requires { place < 2 ^ 63 }
    ensures { result ≡ lookup_strays marks.now length place rest.now }
{
    let front = tail(rest, 1 + pad(place));
    let count = u4_in(tail(front, 4)) as usize;
    strays(marks, length, place, u4_in(front), 0x8000_0000)
        || are_straying(marks, length, place, 8, count, tail(front, 12))
}

/// Whether the instruction of this form at a place has a jump that misses.
#[tactic(auto, unfolding(crate::specs::Jumps::is_straying))]
fn is_straying(marks: &[bool], length: usize, operands: Operands, place: usize, rest: &[u8]) -> bool
    requires { place < 2 ^ 63 }
    ensures { result ≡ is_straying marks.now length operands place rest.now }
{
    match operands {
        Operands::Jump => strays(marks, length, place, u2_in(tail(rest, 1)) as u32, 0x8000),
        Operands::FarJump => strays(marks, length, place, u4_in(tail(rest, 1)), 0x8000_0000),
        Operands::TableSwitch => table_strays(marks, length, place, rest),
        Operands::LookupSwitch => lookup_strays(marks, length, place, rest),
        _ => false,
    }
}

/// Which kind of constant an instruction of this form names, and its number.
#[tactic(auto, unfolding(crate::specs::Jumps::named_in))]
fn named_in(operands: Operands, rest: &[u8]) -> Option<(Kind, u16)>
    ensures { result ≡ named_in operands rest.now }
{
    match operands {
        Operands::NearConstant(kind) => Some((kind, byte_of(rest, 1) as u16)),
        Operands::Constant(kind) => Some((kind, u2_in(tail(rest, 1)))),
        Operands::Interface => Some((Kind::InterfaceMethod, u2_in(tail(rest, 1)))),
        Operands::Dynamic => Some((Kind::DynamicCall, u2_in(tail(rest, 1)))),
        Operands::Dimensions => Some((Kind::Class, u2_in(tail(rest, 1)))),
        _ => None,
    }
}

/// Whether an instruction of this form names a constant that it can't.
#[tactic(auto, unfolding(crate::specs::Jumps::is_misnaming))]
fn is_misnaming(pool: &Pool, operands: Operands, rest: &[u8]) -> bool
    ensures { result ≡ is_misnaming (pool_of pool.now) operands rest.now }
{
    match named_in(operands, rest) {
        Some((kind, number)) => is_wrong(pool, kind, number),
        None => false,
    }
}

/// What is wrong with a class file in whose code no instruction stands.
fn kind_of(fault: CodeFault) -> FaultKind
    ensures { result ≡ kind_of fault }
{
    match fault {
        CodeFault::Unsupported => FaultKind::Unsupported,
        CodeFault::UnknownOpcode => FaultKind::UnknownOpcode,
        CodeFault::BadOperand => FaultKind::BadOperand,
    }
}

/// How many bytes the instruction at the front of this rest of a code takes, or what is wrong with it.
/// The code ends at the place `end` of the file.
#[tactic(auto, unfolding(crate::specs::Jumps::judged))]
fn judged(pool: &Pool, marks: &[bool], code: &[u8], end: usize, rest: &[u8]) -> Result<usize, Fault>
    ensures { result ≡ judged (pool_of pool.now) marks.now code.now end rest.now }
{
    let place = code.len().saturating_sub(rest.len());
    let offset = end.saturating_sub(rest.len());
    let (row, size) = match laid_out(place, rest) {
        Ok(found) => found,
        Err(fault) => {
            return Err(Fault {
                kind: kind_of(fault),
                offset,
            });
        }
    };
    if is_misnaming(pool, row.operands, rest) {
        return Err(Fault {
            kind: FaultKind::BadIndex,
            offset: end.saturating_sub(tail(rest, 1).len()),
        });
    }
    if is_straying(marks, code.len(), row.operands, place, rest) {
        return Err(Fault {
            kind: FaultKind::BadJump,
            offset,
        });
    }
    Ok(size)
}

/// The first thing that is wrong with a code, whose marks these are.
#[tactic(auto, unfolding(crate::specs::Jumps::first_fault))]
fn first_fault(pool: &Pool, marks: &[bool], code: &[u8], end: usize) -> Option<Fault>
    ensures { result ≡ first_fault (pool_of pool.now) marks.now code.now end (length code.now) code.now }
{
    let mut rest = code;
    for _ in 0..code.len() {
        if rest.is_empty() {
            return None;
        }
        match judged(pool, marks, code, end, rest) {
            Ok(size) => rest = tail(rest, size),
            Err(fault) => return Some(fault),
        }
    }
    None
}

/// The places of a code that are beginnings of instructions, if nothing is wrong with it.
#[tactic(auto, unfolding(crate::specs::Jumps::checked))]
pub(crate) fn checked(
    alloc: Global,
    pool: &Pool,
    code: &[u8],
    end: usize,
) -> Result<Vec<bool>, ReadError>
    ensures { Gives (λ x. x.items) result (checked (pool_of pool.now) code.now end) }
{
    let marks = marks_of(alloc, code)?;
    match first_fault(pool, marks.as_slice(), code, end) {
        Some(fault) => Err(ReadError::Wrong(fault)),
        None => Ok(marks),
    }
}
