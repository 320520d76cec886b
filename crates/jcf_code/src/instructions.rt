//! The instructions of a code, one behind the other (JVMS chapter 6).

ghost use Rattle.std.specs.Prelude.{◌≡◌, ◌<◌, ◌+◌, ◌^◌, IfOk, map};
ghost use Rattle.std.specs.Int.{cast_signed};
ghost use mir.Syntax.{w32};
ghost use Rattle.jcf_code.specs.Instructions.{operand_of, instruction_of, landing, far_landing, table_cases, lookup_cases, count_or_none};
ghost use Rattle.jcf_code.specs.Instructions.{table_operand, lookup_operand, operand_at, wide_operand, meant, instruction_at, instructions};

use crate::bytes::{byte_of, tail, u2_in, u4_in};
use crate::instruction::{Case, Instruction, Operand};
use crate::layout::{laid_out, pad, table_length};
use jcf_effects::{Effect, Operands, Row, row_of};
use mg_text::{List, Memory};
use std::alloc::Global;

/// To where a jump leads from a place, whose distance is this number, from `half` on a negative one.
fn landing(place: usize, distance: u32, half: u32) -> usize
    requires place { place < 2 ^ 63 }
    ensures { result ≡ landing place distance half }
{
    if distance < half {
        return place + distance as usize;
    }
    place.saturating_sub((2 * half as usize).saturating_sub(distance as usize))
}

/// To where a jump leads whose distance stands in four bytes at the front of these.
fn far_landing(place: usize, bytes: &[u8]) -> usize
    requires { place < 2 ^ 63 }
    ensures { result ≡ far_landing place bytes.now }
{
    landing(place, u4_in(bytes), 0x8000_0000)
}

/// An int that a switch has, by its bits, and the place to which it leads.
fn case_of(bits: u32, target: usize) -> Case
    ensures { result ≡ record { number = cast_signed w32 bits; target = target } }
{
    Case {
        number: bits.cast_signed(),
        target,
    }
}

/// So many ints from one on, whose distances stand in these bytes.
fn table_cases(
    alloc: Global,
    place: usize,
    low: u32,
    count: usize,
    bytes: &[u8],
) -> Result<List<Case>, Memory>
    requires { place < 2 ^ 63 }
    ensures { IfOk result (λ cases. cases.items ≡ table_cases place low count bytes.now) }
{
    let mut cases = List::new(alloc);
    let mut rest = bytes;
    let mut number = low;
    for _ in 0..count {
        cases.push(case_of(number, far_landing(place, rest)))?;
        number = number.wrapping_add(1);
        rest = tail(rest, 4);
    }
    Ok(cases)
}

/// So many ints, each with its distance in these bytes.
fn lookup_cases(alloc: Global, place: usize, count: u32, bytes: &[u8]) -> Result<List<Case>, Memory>
    requires { place < 2 ^ 63 }
    ensures { IfOk result (λ cases. cases.items ≡ lookup_cases place count bytes.now) }
{
    let mut cases = List::new(alloc);
    let mut rest = bytes;
    for _ in 0..count {
        cases.push(case_of(u4_in(rest), far_landing(place, tail(rest, 4))))?;
        rest = tail(rest, 8);
    }
    Ok(cases)
}

/// What stands in a `tableswitch`, behind what pads it.
#[tactic(auto, unfolding(crate::specs::Instructions::table_operand))]
fn table_operand(alloc: Global, place: usize, front: &[u8]) -> Result<Operand, Memory>
    requires { place < 2 ^ 63 }
    ensures { IfOk result (λ x. operand_of x ≡ table_operand place front.now) }
{
    let bounds = tail(front, 4);
    let count = table_length(bounds).unwrap_or(0);
    let cases = table_cases(alloc, place, u4_in(bounds), count, tail(front, 12))?;
    Ok(Operand::Switch(far_landing(place, front), cases))
}

/// What stands in a `lookupswitch`, behind what pads it.
#[tactic(auto, unfolding(crate::specs::Instructions::lookup_operand))]
fn lookup_operand(alloc: Global, place: usize, front: &[u8]) -> Result<Operand, Memory>
    requires { place < 2 ^ 63 }
    ensures { IfOk result (λ x. operand_of x ≡ lookup_operand place front.now) }
{
    let cases = lookup_cases(alloc, place, u4_in(tail(front, 4)), tail(front, 8))?;
    Ok(Operand::Switch(far_landing(place, front), cases))
}

/// What stands behind an opcode of this form at a place, from which on these are the bytes.
#[tactic(auto, unfolding(crate::specs::Instructions::operand_at))]
fn operand_at(
    alloc: Global,
    operands: Operands,
    place: usize,
    rest: &[u8],
) -> Result<Operand, Memory>
    requires { place < 2 ^ 63 }
    ensures { IfOk result (λ x. operand_of x ≡ operand_at operands place rest.now) }
{
    let behind = tail(rest, 1);
    Ok(match operands {
        Operands::Nothing | Operands::Wide => Operand::Nothing,
        Operands::Byte => Operand::Number(byte_of(rest, 1).cast_signed() as i16),
        Operands::Short => Operand::Number(u2_in(behind).cast_signed()),
        Operands::Local => Operand::Local(byte_of(rest, 1) as u16),
        Operands::Increment => {
            Operand::Increment(
                byte_of(rest, 1) as u16,
                byte_of(rest, 2).cast_signed() as i16,
            )
        }
        Operands::Jump => Operand::Jump(landing(place, u2_in(behind) as u32, 0x8000)),
        Operands::FarJump => Operand::Jump(far_landing(place, behind)),
        Operands::NearConstant(_) => Operand::Constant(byte_of(rest, 1) as u16),
        Operands::Constant(_) | Operands::Interface | Operands::Dynamic => {
            Operand::Constant(u2_in(behind))
        }
        Operands::Dimensions => Operand::Dimensions(u2_in(behind), byte_of(rest, 3)),
        Operands::TableSwitch => table_operand(alloc, place, tail(rest, 1 + pad(place)))?,
        Operands::LookupSwitch => lookup_operand(alloc, place, tail(rest, 1 + pad(place)))?,
    })
}

/// What stands behind the opcode behind `wide`.
#[tactic(auto, unfolding(crate::specs::Instructions::wide_operand))]
fn wide_operand(operands: Operands, rest: &[u8]) -> Operand
    ensures { operand_of result ≡ wide_operand operands rest.now }
{
    let local = u2_in(tail(rest, 2));
    match operands {
        Operands::Increment => Operand::Increment(local, u2_in(tail(rest, 4)).cast_signed()),
        _ => Operand::Local(local),
    }
}

/// What an instruction does that has this row, and with what.
#[tactic(auto, unfolding(crate::specs::Instructions::meant))]
fn meant(alloc: Global, row: Row, place: usize, rest: &[u8]) -> Result<(Effect, Operand), Memory>
    requires { place < 2 ^ 63 }
    ensures { IfOk result (λ x. (x.0, operand_of x.1) ≡ meant row.operands row.effect place rest.now) }
{
    if !matches!(row.operands, Operands::Wide) {
        let operand = operand_at(alloc, row.operands, place, rest)?;
        return Ok((row.effect, operand));
    }
    match row_of(byte_of(rest, 1)) {
        Some(widened) => Ok((widened.effect, wide_operand(widened.operands, rest))),
        None => Ok((Effect::Wide, Operand::Nothing)),
    }
}

/// The instruction that has this row and size, and stands at a place, from which on these are the bytes.
#[tactic(auto, unfolding(crate::specs::Instructions::instruction_at))]
fn instruction_at(
    alloc: Global,
    row: Row,
    size: usize,
    place: usize,
    rest: &[u8],
) -> Result<Instruction, Memory>
    requires { place + size < 2 ^ 63 }
    ensures { IfOk result (λ i. instruction_of i ≡ instruction_at row size place rest.now) }
{
    let (effect, operand) = meant(alloc, row, place, rest)?;
    Ok(Instruction {
        place,
        after: place + size,
        effect,
        operand,
    })
}

/// The instructions of a code, as far as they can be laid out.
///
/// # Errors
///
/// `Memory` where memory runs out.
pub fn instructions_of(alloc: Global, code: &[u8]) -> Result<List<Instruction>, Memory>
    ensures { IfOk result (λ is. map instruction_of is.items ≡ instructions code.now) }
{
    let mut instructions = List::new(alloc);
    let mut rest = code;
    for _ in 0..code.len() {
        if rest.is_empty() {
            return Ok(instructions);
        }
        let place = code.len() - rest.len();
        let Ok((row, size)) = laid_out(place, rest) else {
            return Ok(instructions);
        };
        instructions.push(instruction_at(alloc, row, size, place, rest)?)?;
        rest = tail(rest, size);
    }
    Ok(instructions)
}
