//! How many bytes an instruction takes (JVMS chapter 6), or why none stands at a place.

ghost use Rattle.std.specs.Prelude.{◌≡◌, ◌≤◌, ◌^◌, length, IfOk, IfSome};
ghost use Rattle.jcf_code.specs.Layout.{biased, pad, fits, table_length, table_size, lookup_size, is_unsupported, wide_size, sized, laid};

use crate::bytes::{byte_of, tail, u4_in};
use crate::fault::CodeFault;
use jcf_effects::{Effect, Operands, Row, fixed_bytes, row_of};

/// Signed numbers of four bytes in their order, from 0 on.
fn biased(bits: u32) -> u32
    ensures { result ≡ biased bits }
{
    if bits < 0x8000_0000 {
        bits + 0x8000_0000
    } else {
        bits - 0x8000_0000
    }
}

/// How many bytes stand up to a multiple of four behind an opcode at this place.
pub fn pad(place: usize) -> usize
    ensures { result ≡ pad place }
{
    3 - place % 4
}

/// How many bytes an instruction takes, if so many are there.
fn fits(size: usize, rest: &[u8]) -> Result<usize, CodeFault>
    ensures same { result ≡ fits size rest.now }
    ensures within { IfOk result (λ size. size ≤ length rest.now) }
{
    if rest.len() < size {
        Err(CodeFault::BadOperand)
    } else {
        Ok(size)
    }
}

/// How many distances a `tableswitch` has, whose bounds stand here, if its highest int isn't below its lowest.
#[tactic(auto, unfolding(crate::specs::Layout::table_length))]
pub fn table_length(bounds: &[u8]) -> Option<usize>
    ensures same { result ≡ table_length bounds.now }
    ensures few { IfSome result (λ count. count ≤ 2 ^ 32) }
{
    let low = biased(u4_in(bounds));
    let high = biased(u4_in(tail(bounds, 4)));
    if high < low {
        return None;
    }
    Some((high - low) as usize + 1)
}

#[tactic(auto, unfolding(crate::specs::Layout::table_size))]
fn table_size(place: usize, rest: &[u8]) -> Result<usize, CodeFault>
    ensures same { result ≡ table_size place rest.now }
    ensures within { IfOk result (λ size. size ≤ length rest.now) }
{
    let from = 1 + pad(place);
    match table_length(tail(rest, from + 4)) {
        Some(count) => fits(from + 12 + 4 * count, rest),
        None => Err(CodeFault::BadOperand),
    }
}

#[tactic(auto, unfolding(crate::specs::Layout::lookup_size))]
fn lookup_size(place: usize, rest: &[u8]) -> Result<usize, CodeFault>
    ensures same { result ≡ lookup_size place rest.now }
    ensures within { IfOk result (λ size. size ≤ length rest.now) }
{
    let from = 1 + pad(place);
    let count = u4_in(tail(rest, from + 4)) as usize;
    fits(from + 8 + 8 * count, rest)
}

/// An instruction with a local takes four bytes behind `wide`, and one that adds to it six.
#[tactic(auto, unfolding(crate::specs::Layout::wide_size))]
fn wide_size(rest: &[u8]) -> Result<usize, CodeFault>
    ensures same { result ≡ wide_size rest.now }
    ensures within { IfOk result (λ size. size ≤ length rest.now) }
{
    let Some(row) = row_of(byte_of(rest, 1)) else {
        return Err(CodeFault::BadOperand);
    };
    match row.operands {
        Operands::Local => {
            if is_unsupported(row.effect) {
                return Err(CodeFault::Unsupported);
            }
            fits(4, rest)
        }
        Operands::Increment => fits(6, rest),
        _ => Err(CodeFault::BadOperand),
    }
}

/// Whether an instruction is one of subroutines.
fn is_unsupported(effect: Effect) -> bool
    ensures { result ≡ is_unsupported effect }
{
    matches!(effect, Effect::Unsupported)
}

/// How many bytes an instruction of this form takes.
#[tactic(auto, unfolding(crate::specs::Layout::sized))]
fn sized(operands: Operands, place: usize, rest: &[u8]) -> Result<usize, CodeFault>
    ensures same { result ≡ sized operands place rest.now }
    ensures within { IfOk result (λ size. size ≤ length rest.now) }
{
    match operands {
        Operands::TableSwitch => table_size(place, rest),
        Operands::LookupSwitch => lookup_size(place, rest),
        Operands::Wide => wide_size(rest),
        _ => match fixed_bytes(operands) {
            Some(count) => fits(1 + count as usize, rest),
            None => unreachable!(),
        },
    }
}

/// How many bytes the instruction at the front takes, which stands at this place.
#[tactic(auto, unfolding(crate::specs::Layout::laid))]
pub fn laid_out(place: usize, rest: &[u8]) -> Result<(Row, usize), CodeFault>
    ensures same { result ≡ laid place rest.now }
    ensures within { IfOk result (λ x. x.1 ≤ length rest.now) }
{
    let Some(row) = row_of(byte_of(rest, 0)) else {
        return Err(CodeFault::UnknownOpcode);
    };
    if is_unsupported(row.effect) {
        return Err(CodeFault::Unsupported);
    }
    let size = sized(row.operands, place, rest)?;
    Ok((row, size))
}
