//! Instructions as they stand in a class file.

ghost use Rattle.std.specs.Prelude.{◌≡◌, IfOk, length, map};
ghost use Rattle.cls_tree.specs.View.{args_of, instr_of, instrs_of};
ghost use Rattle.jv_core.specs.Tree.{Program};
ghost use Rattle.gen_expressions.specs.View.{operand_of, instr_of as symbolic_of, instrs_of as symbolics_of};
ghost use Rattle.gen_rules.specs.Assembled.{distance};
ghost use Rattle.gen_members.specs.Laid.{final_op, final_args, finals};

use crate::laying::Laid;
use cls_tree::opcodes::{LDC, LDC_W};
use cls_tree::{Args, Instr};
use gen_expressions::{Operand, Symbolic};
use gen_pool::short;
use mg_text::{List, Memory};
use std::alloc::Global;

/// Places from here on are too far for the distances of a class file.
const TOO_FAR: usize = 0x7fff_ffff;

/// A number of one byte.
/// # Errors
/// A number past one byte.
fn byte(number: u32) -> Result<u8, Memory>
    ensures { IfOk result (λ n. n ≡ number) }
{
    if number < 256 {
        Ok(number as u8)
    } else {
        Err(Memory)
    }
}

/// How many bytes it is from a place to the instruction of a number.
/// # Errors
/// Places past 2^31.
fn distance(starts: &[usize], here: usize, target: u32) -> Result<i32, Memory>
    ensures { IfOk result (λ d. d ≡ distance starts.now here target) }
{
    let there = match starts.get(target as usize) {
        Some(place) => *place,
        None => 0,
    };
    if here >= TOO_FAR || there >= TOO_FAR {
        return Err(Memory);
    }
    Ok(there as i32 - here as i32)
}

/// The distance of a jump, in two bytes.
/// # Errors
/// A distance past two bytes.
fn short_distance(starts: &[usize], here: usize, target: u32) -> Result<i16, Memory>
    ensures { IfOk result (λ d. d ≡ distance starts.now here target) }
{
    let distance = distance(starts, here, target)?;
    if distance < -32768 || distance > 32767 {
        return Err(Memory);
    }
    Ok(distance as i16)
}

/// The distances of a table.
fn distances(
    alloc: Global,
    starts: &[usize],
    here: usize,
    targets: &[u32],
) -> Result<List<i32>, Memory>
    ensures { IfOk result (λ ds. ds.items ≡ map (distance starts.now here) targets.now) }
{
    let mut distances = List::new(alloc);
    for target in targets {
        distances.push(distance(starts, here, *target)?)?;
    }
    Ok(distances)
}

/// What stands behind the opcode of an instruction at a place, where its constant has this number.
#[tactic(auto, using(crate::proofs::Final::built_ins))]
fn final_args(
    alloc: Global,
    starts: &[usize],
    here: usize,
    operand: &Operand<'_>,
    number: usize,
) -> Result<Args, Memory>
    ensures { IfOk result (λ a. (p : Program) → args_of a ≡ final_args starts.now here (operand_of p operand.now) number) }
{
    let args = match operand {
        Operand::Nothing => Args::None,
        Operand::Number(number) => Args::Number(*number),
        Operand::Local(local) => Args::Local(byte(*local)?),
        Operand::Jump(target) => Args::Jump(short_distance(starts, here, *target)?),
        Operand::Table { default, targets } => Args::Table {
            default: distance(starts, here, *default)?,
            low: 0,
            offsets: distances(alloc, starts, here, targets.as_slice())?,
        },
        Operand::Int(_) | Operand::Text(_) | Operand::Class(_) => Args::Pool(short(number)?),
        Operand::Field { .. } | Operand::Method(_) => Args::Pool(short(number)?),
        Operand::Constructor(_) | Operand::BuiltIn(_) => Args::Pool(short(number)?),
    };
    Ok(args)
}

/// The opcode of an instruction, where its constant has this number: `ldc` is `ldc_w` past 255.
#[tactic(auto, using(crate::proofs::Final::built_ins))]
fn final_op(instr: &Symbolic<'_>, number: usize) -> u8
    ensures { (p : Program) → result ≡ final_op instr.now.op (operand_of p instr.now.operand) number }
{
    match &instr.operand {
        Operand::Int(_) | Operand::Text(_) => if number < 256 { LDC } else { LDC_W },
        _ => instr.op,
    }
}

/// The instructions of a code that is laid out, as they stand in a class file.
/// # Errors
/// Want of memory, and numbers that no class file can hold, as those of a code over 32,767 bytes
/// or of a pool over 65,535 constants.
pub(crate) fn final_code(
    alloc: Global,
    instrs: &[Symbolic<'_>],
    laid: &Laid,
) -> Result<List<Instr>, Memory>
    requires numbers { length laid.now.numbers.items ≡ length instrs.now }
    requires starts { length laid.now.starts.items ≡ length instrs.now }
    ensures { IfOk result (λ is. (p : Program) → instrs_of is.items
        ≡ finals laid.now.starts.items laid.now.starts.items (symbolics_of p instrs.now) laid.now.numbers.items) }
{
    let starts = laid.starts.as_slice();
    let mut code = List::new(alloc);
    for index in 0..instrs.len() {
        let instr = &instrs[index];
        let number = laid.numbers[index];
        code.push(Instr {
            op: final_op(instr, number),
            args: final_args(alloc, starts, starts[index], &instr.operand, number)?,
        })?;
    }
    Ok(code)
}
