//! Code as instructions and as bytes: encoded and decoded, exactly both ways (JVMS chapter 6).
//! The form of each instruction's arguments is that of the one table of opcodes.
#![tactic(auto)]

ghost use Rattle.std.specs.Prelude.{◌≡◌, ℕ, List};
ghost use Rattle.cls_tree.specs.View.{instrs_of};
ghost use Rattle.cls_tree.specs.Fits.{FitsInstrs};
ghost use Rattle.cls_code.specs.Code.{Decodes, Decoding, encoding};
ghost use Rattle.cls_code.specs.Answer.{IsEncoded, IsDecoded, IsDecodedOrMemory, DecodesOnce};

mod jumps;
mod numbers;
mod reading;
mod writing;

use crate::jumps::first_outside;
use crate::reading::placed_in;
use crate::writing::placed_bytes;
use cls_tree::Instr;
use mg_text::{Bytes, List, Memory};
pub use numbers::{put_s1, put_s2, put_s4, put_u1, put_u2, put_u4};
use std::alloc::Global;

/// The longest code of a method, in bytes.
pub const LONGEST: usize = 32767;

/// Why instructions are no code, or bytes none. Offsets are counted in bytes from the start of the code.
#[derive(Clone, Copy, Debug)]
pub enum CodeFault {
    /// Over 32,767 bytes; the offset is 0.
    CodeTooLong { offset: u32 },
    /// The byte at which an instruction is to start is no opcode.
    UnknownOpcode { offset: u32 },
    /// The code ends in the instruction that starts there, or has none.
    Short { offset: u32 },
    /// A table whose pad bytes aren't all 0, or whose highest number is below its lowest.
    BadSwitch { offset: u32 },
    /// The first instruction that jumps to where none starts.
    JumpOutside { offset: u32 },
    /// Want of memory.
    Memory,
}

impl From<Memory> for CodeFault {
    ghost use Rattle.std.specs.Prelude.{◌≡◌};
    ghost use Rattle.cls_code.specs.declared.CodeFault.TheVariants as E;

    ghost from_gives = { λ _ e. e ≡ E.Memory };

    fn from(_memory: Memory) -> CodeFault {
        CodeFault::Memory
    }
}

/// The bytes of instructions.
///
/// # Errors
///
/// `CodeTooLong` where they are over 32,767, else `JumpOutside` where an instruction jumps to where none starts.
pub fn encode(alloc: Global, instrs: &[Instr]) -> Result<Bytes, CodeFault>
    requires { FitsInstrs (instrs_of instrs.now) }
    ensures { IsEncoded (encoding (instrs_of instrs.now)) result }
{
    let placed = placed_bytes(alloc, instrs)?;
    if placed.bytes.len() > LONGEST {
        return Err(CodeFault::CodeTooLong { offset: 0 });
    }
    match first_outside(alloc, instrs, placed.starts.as_slice(), placed.bytes.len())? {
        None => Ok(placed.bytes),
        Some(offset) => Err(CodeFault::JumpOutside { offset }),
    }
}

/// The instructions that bytes are.
///
/// # Errors
///
/// `CodeTooLong` where the bytes are over 32,767; else, at the first place where no instruction stands,
/// `UnknownOpcode`, `Short` or `BadSwitch`; else `JumpOutside`.
pub fn decode(alloc: Global, bytes: &[u8]) -> Result<List<Instr>, CodeFault>
    // What is answered is so, unless memory ran out.
    ensures found { IsDecoded bytes.now result }
    // What is so is answered, unless memory runs out.
    ensures exact { (decoding : Decoding) → Decodes bytes.now decoding → IsDecodedOrMemory decoding result }
{
    decoded(alloc, bytes)
}

/// The instructions, or the fault of the bytes.
fn decoded(alloc: Global, bytes: &[u8]) -> Result<List<Instr>, CodeFault>
    ensures { IsDecoded bytes.now result }
{
    if bytes.len() > LONGEST {
        return Err(CodeFault::CodeTooLong { offset: 0 });
    }
    let placed = placed_in(alloc, bytes)?;
    match first_outside(
        alloc,
        placed.instrs.as_slice(),
        placed.starts.as_slice(),
        bytes.len(),
    )? {
        None => Ok(placed.instrs),
        Some(offset) => Err(CodeFault::JumpOutside { offset }),
    }
}

/// Bytes are one code at most, or have one fault.
pub fn decodes_once()
    ensures { DecodesOnce }
{}
