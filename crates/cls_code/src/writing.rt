//! Instructions as bytes, one behind the other.
//! What stands behind an opcode goes by the form of its arguments.

ghost use Rattle.std.specs.Prelude.{◌≡◌, ℕ, ◌+◌, ◌+ℤ◌, ◌-ℤ◌, ◌^◌, pos, ◌<◌, ◌≤◌, ◌∷◌, [], ◌++◌, length, replicate, Option, OnOk, IfOk};
ghost use Rattle.std.specs.List.{flat_map, AllByRecursion};
ghost use Rattle.std.specs.Int.RustNames.{FitsSigned};
ghost use mir.Syntax.{w32};
ghost use Rattle.cls_tree.specs.View.{args_of, instr_of, instrs_of};
ghost use Rattle.cls_tree.specs.Tree.{Table as TableArgs};
ghost use Rattle.cls_tree.specs.Layout.{pad, s4, form_bytes, instr_bytes, code_bytes};
ghost use Rattle.cls_tree.specs.Fits.{FitsForm, FitsInstr};
ghost use Rattle.cls_tree.specs.Jumps.{starts_from};

use crate::numbers::{put_s1, put_s2, put_s4, put_u1, put_u2};
use crate::reading::pad_at;
use cls_tree::{Args, Form, Instr, form_of};
use mg_text::{Bytes, List, Memory};
use std::alloc::Global;

/// Appends the zero bytes behind the opcode of a table at this place.
fn put_pad(out: &mut Bytes, place: usize) -> Result<(), Memory>
    ensures { OnOk result (out.new ≡ out.old ++ replicate (pad place) 0) }
{
    let zeros = [0u8; 3];
    out.extend(&zeros[..pad_at(place)])
}

/// Appends signed numbers of four bytes.
fn put_words(out: &mut Bytes, numbers: &[i32]) -> Result<(), Memory>
    ensures { OnOk result (out.new ≡ out.old ++ flat_map s4 numbers.now) }
{
    for number in numbers {
        put_s4(out, *number)?;
    }
    Ok(())
}

/// The highest number of a table of so many offsets.
fn highest_of(low: i32, count: usize) -> i32
    requires few { count < 2 ^ 32 }
    requires fits { FitsSigned w32 ((low +ℤ pos count) -ℤ pos 1) }
    ensures { result ≡ (low +ℤ pos count) -ℤ pos 1 }
{
    (low as i64 + count as i64 - 1) as i32
}

/// Appends a table behind an opcode at this place.
fn put_table(
    out: &mut Bytes,
    place: usize,
    default: i32,
    low: i32,
    offsets: &[i32],
) -> Result<(), Memory>
    requires few { length offsets.now < 2 ^ 32 }
    requires fits { FitsForm Form.Table (TableArgs default low offsets.now) }
    ensures { OnOk result (out.new ≡ out.old ++ form_bytes place Form.Table (TableArgs default low offsets.now)) }
{
    put_pad(out, place)?;
    put_s4(out, default)?;
    put_s4(out, low)?;
    put_s4(out, highest_of(low, offsets.len()))?;
    put_words(out, offsets)?;
    Ok(())
}

/// Appends the arguments of this form behind an opcode at this place.
fn put_args(out: &mut Bytes, place: usize, form: Form, args: &Args) -> Result<(), Memory>
    requires { FitsForm form (args_of args.now) }
    ensures { OnOk result (out.new ≡ out.old ++ form_bytes place form (args_of args.now)) }
{
    match (form, args) {
        (Form::Nothing, Args::None) => Ok(()),
        (Form::Byte, Args::Number(number)) => put_s1(out, *number as i8),
        (Form::Short, Args::Number(number)) => put_s2(out, *number),
        (Form::Local, Args::Local(local)) => put_u1(out, *local),
        (Form::Increment, Args::Add(local, number)) => {
            put_u1(out, *local)?;
            put_s1(out, *number)
        }
        (Form::Jump, Args::Jump(distance)) => put_s2(out, *distance),
        (
            Form::Table,
            Args::Table {
                default,
                low,
                offsets,
            },
        ) => put_table(out, place, *default, *low, offsets.as_slice()),
        (Form::NearConstant, Args::Pool(number)) => put_u1(out, *number as u8),
        (Form::Constant, Args::Pool(number)) => put_u2(out, *number),
        (Form::Field, Args::Pool(number)) => put_u2(out, *number),
        (Form::Method, Args::Pool(number)) => put_u2(out, *number),
        (Form::Class, Args::Pool(number)) => put_u2(out, *number),
        _ => unreachable!(),
    }
}

/// Appends an instruction at this place.
fn put_instr(out: &mut Bytes, place: usize, instr: &Instr) -> Result<(), Memory>
    requires { FitsInstr (instr_of instr.now) }
    ensures { OnOk result (out.new ≡ out.old ++ instr_bytes place (instr_of instr.now)) }
{
    put_u1(out, instr.op)?;
    match form_of(instr.op) {
        Some(form) => put_args(out, place, form, &instr.args),
        None => unreachable!(),
    }
}

/// Bytes of instructions, and the places at which these start.
#[derive(Drop)]
pub struct Written {
    pub bytes: Bytes,
    pub starts: List<usize>,
}

/// The instructions one behind the other.
pub(crate) fn placed_bytes(alloc: Global, instrs: &[Instr]) -> Result<Written, Memory>
    requires { AllByRecursion FitsInstr (instrs_of instrs.now) }
    ensures bytes { IfOk result (λ w. w.bytes ≡ code_bytes (instrs_of instrs.now)) }
    ensures starts { IfOk result (λ w. w.starts.items ≡ starts_from 0 (instrs_of instrs.now)) }
{
    let mut bytes = Bytes::new(alloc);
    let mut starts = List::new(alloc);
    for instr in instrs {
        let place = bytes.len();
        starts.push(place)?;
        put_instr(&mut bytes, place, instr)?;
    }
    Ok(Written { bytes, starts })
}
