//! Which fields of a class file are wrong: the first of them in the row decides.
//! A code is decoded, and the numbers of its instructions are judged where it has no fault of its own.

ghost use Rattle.std.specs.Prelude.{◌≡◌, ◌<◌, ◌≤◌, ◌+◌, ◌==◌, ◌&&◌, ◌^◌, false, length, drop, IfOk};
ghost use Rattle.cls_tree.specs.View.{args_of, instr_of, instrs_of};
ghost use Rattle.cls_tree.specs.Layout.{pad, instr_bytes, code_bytes};
ghost use Rattle.cls_tree.specs.Fits.{FitsInstr, FitsInstrs};
ghost use Rattle.cls_code.specs.Code.{fixed};
ghost use Rattle.cls_layout.specs.Row.{is_bad_entry};
ghost use Rattle.cls_layout.specs.Faults.{unless, ends_well, is_misnamed, args_misnamed, first_misnamed, judged_name, judged, JudgesText};
ghost use Rattle.cls_layout.specs.Faults.{JudgesCode, JudgesField, First};
ghost use Rattle.cls_layout.specs.Judging.{extra, MovesWithin, IsMoved};

use crate::ClassFault;
use crate::format::{Field, MAGIC, Part, VERSION};
use crate::layout::{ends_in, is_code_name, is_known_tag, is_wrong_entry, number_in, tail};
use crate::letters::text_in;
use cls_code::{CodeFault, decode};
use cls_tree::{Args, Form, Instr, form_of};
use mg_read::ReadError;
use mg_text::Memory;
use std::alloc::Global;

/// A fault, unless this holds.
fn fault_unless(holds: bool, fault: ClassFault) -> Option<ClassFault>
    ensures { result ≡ unless holds fault }
{
    if holds { None } else { Some(fault) }
}

/// Whether the whole is the sum of its parts.
fn is_sum(end: u32, from: u32, length: u32) -> bool
    ensures { result ≡ (end == from + length) }
{
    end >= from && end - from == length
}

/// Whether the content whose length stands before these fields ends where it says, if its end was reached.
#[tactic(auto, unfolding(crate::specs::Faults::ends_well))]
fn is_well_ended(later: &[Field]) -> bool
    ensures { result ≡ ends_well later.now }
{
    for field in later {
        if let Part::ContentEnd(from, length) = field.part {
            return is_sum(field.at, from, length);
        }
    }
    true
}

/// The fault of bytes that are no text.
fn text_fault(alloc: Global, bytes: &[u8], at: u32) -> Result<Option<ClassFault>, Memory>
    ensures { IfOk result (λ r. JudgesText bytes.now at r) }
{
    match text_in(alloc, bytes) {
        Ok(_) => Ok(None),
        Err(ReadError::Syntax) => Ok(Some(ClassFault::BadText { offset: at })),
        Err(ReadError::Memory) => Err(Memory),
    }
}

/// The fault of a code that begins at this place.
fn moved_fault(fault: CodeFault, at: u32) -> Result<CodeFault, Memory>
    requires { MovesWithin at fault }
    ensures { IsMoved at fault result }
{
    match fault {
        CodeFault::CodeTooLong { offset } => Ok(CodeFault::CodeTooLong {
            offset: at + offset,
        }),
        CodeFault::UnknownOpcode { offset } => Ok(CodeFault::UnknownOpcode {
            offset: at + offset,
        }),
        CodeFault::Short { offset } => Ok(CodeFault::Short {
            offset: at + offset,
        }),
        CodeFault::BadSwitch { offset } => Ok(CodeFault::BadSwitch {
            offset: at + offset,
        }),
        CodeFault::JumpOutside { offset } => Ok(CodeFault::JumpOutside {
            offset: at + offset,
        }),
        CodeFault::Memory => Err(Memory),
    }
}

/// How many bytes stand behind an opcode at this place, but for the offsets of a table.
fn fixed_size(place: u32, form: Form) -> u32
    ensures { result ≡ fixed place form }
{
    match form {
        Form::Nothing => 0,
        Form::Byte | Form::Local | Form::NearConstant => 1,
        Form::Table => 3 - place % 4 + 12,
        _ => 2,
    }
}

/// How many bytes an instruction takes at this place.
fn size_of_instr(place: u32, instr: &Instr) -> u32
    requires fits { FitsInstr (instr_of instr.now) }
    requires few { length (instr_bytes place (instr_of instr.now)) < 2 ^ 16 }
    ensures { result ≡ length (instr_bytes place (instr_of instr.now)) }
{
    match form_of(instr.op) {
        Some(form) => 1 + fixed_size(place, form) + offset_bytes(&instr.args),
        None => unreachable!(),
    }
}

/// How many bytes the offsets of a table take, if the arguments are one.
fn offset_bytes(args: &Args) -> u32
    requires { extra (args_of args.now) < 2 ^ 16 }
    ensures { result ≡ extra (args_of args.now) }
{
    match args {
        Args::Table { offsets, .. } => 4 * offsets.len() as u32,
        _ => 0,
    }
}

/// Whether the number behind an opcode can't name a constant of the kind that it needs.
fn is_wrong_name(bytes: &[u8], places: &[u32], form: Form, number: u32) -> bool
    ensures { result ≡ is_misnamed (is_bad_entry bytes.now places.now) (Some form) number }
{
    match form {
        Form::NearConstant | Form::Constant => {
            is_wrong_entry(bytes, places, 3, number) && is_wrong_entry(bytes, places, 8, number)
        }
        Form::Field => is_wrong_entry(bytes, places, 9, number),
        Form::Method => is_wrong_entry(bytes, places, 10, number),
        Form::Class => is_wrong_entry(bytes, places, 7, number),
        _ => false,
    }
}

/// Whether an instruction names a constant that it can't.
fn is_misnaming(bytes: &[u8], places: &[u32], instr: &Instr) -> bool
    ensures { result ≡ args_misnamed (is_bad_entry bytes.now places.now) (instr_of instr.now).op (instr_of instr.now).args }
{
    match &instr.args {
        Args::Pool(number) => match form_of(instr.op) {
            Some(form) => is_wrong_name(bytes, places, form, *number as u32),
            None => false,
        },
        _ => false,
    }
}

/// The place of the first instruction that names a constant that it can't.
fn misnamed_in(bytes: &[u8], places: &[u32], instrs: &[Instr]) -> Option<u32>
    requires fits { FitsInstrs (instrs_of instrs.now) }
    requires few { length (code_bytes (instrs_of instrs.now)) < 2 ^ 16 }
    ensures { result ≡ first_misnamed (is_bad_entry bytes.now places.now) 0 (instrs_of instrs.now) }
{
    let mut place = 0;
    for instr in instrs {
        if is_misnaming(bytes, places, instr) {
            return Some(place);
        }
        place += size_of_instr(place, instr);
    }
    None
}

/// The fault of the bytes of a code that begins at this place.
fn code_fault(
    alloc: Global,
    bytes: &[u8],
    places: &[u32],
    at: u32,
    code: &[u8],
) -> Result<Option<ClassFault>, Memory>
    requires { at + length code.now < 2 ^ 32 }
    ensures { IfOk result (λ r. JudgesCode (is_bad_entry bytes.now places.now) code.now at r) }
{
    let instrs = match decode(alloc, code) {
        Ok(instrs) => instrs,
        Err(fault) => {
            let moved = moved_fault(fault, at)?;
            return Ok(Some(ClassFault::Code(moved)));
        }
    };
    let Some(place) = misnamed_in(bytes, places, instrs.as_slice()) else {
        return Ok(None);
    };
    Ok(Some(ClassFault::BadIndex { offset: at + place }))
}

/// The fault of the name of an attribute of a method.
fn name_fault(at: u32, is_wrong: bool, is_second: bool) -> Option<ClassFault>
    ensures { result ≡ judged_name at is_wrong is_second }
{
    if is_wrong {
        return Some(ClassFault::BadIndex { offset: at });
    }
    fault_unless(!is_second, ClassFault::BadAttribute { offset: at })
}

/// The fault of a part in which this number stands, before others.
fn number_fault(
    bytes: &[u8],
    places: &[u32],
    field: Field,
    number: u32,
    later: &[Field],
) -> Option<ClassFault>
    ensures { result ≡ judged bytes.now places.now later.now field.part field.at number }
{
    let offset = field.at;
    match field.part {
        Part::Magic => fault_unless(number == MAGIC, ClassFault::BadMagic { offset }),
        Part::Minor => fault_unless(number == 0, ClassFault::Version { offset }),
        Part::Major => fault_unless(number == VERSION as u32, ClassFault::Version { offset }),
        Part::PoolCount => fault_unless(number > 0, ClassFault::BadIndex { offset }),
        Part::Tag => fault_unless(is_known_tag(number), ClassFault::BadTag { offset }),
        Part::Reference(tag) => {
            let is_wrong = is_wrong_entry(bytes, places, tag, number);
            fault_unless(!is_wrong, ClassFault::BadIndex { offset })
        }
        Part::Interfaces | Part::Handlers => {
            fault_unless(number == 0, ClassFault::Unsupported { offset })
        }
        Part::AttributeName => {
            let is_wrong = is_wrong_entry(bytes, places, 1, number);
            fault_unless(!is_wrong, ClassFault::BadIndex { offset })
        }
        Part::MethodAttribute(_, seen) => {
            let is_wrong = is_wrong_entry(bytes, places, 1, number);
            let is_named = is_code_name(bytes, places, number);
            name_fault(offset, is_wrong, both(seen, is_named))
        }
        Part::CodeLength => fault_unless(is_well_ended(later), ClassFault::BadAttribute { offset }),
        _ => None,
    }
}

fn both(first: bool, second: bool) -> bool
    ensures { result ≡ (first && second) }
{
    first && second
}

/// What is wrong with a field, before others.
fn fault_in(
    alloc: Global,
    bytes: &[u8],
    places: &[u32],
    field: Field,
    later: &[Field],
) -> Result<Option<ClassFault>, Memory>
    requires { length bytes.now < 2 ^ 32 }
    ensures { IfOk result (λ r. JudgesField bytes.now places.now field later.now r) }
{
    let offset = field.at;
    if ends_in(bytes, field) {
        return Ok(Some(ClassFault::Short { offset }));
    }
    let rest = tail(bytes, offset);
    match field.part {
        Part::Letters(len) => text_fault(alloc, &rest[..len as usize], offset),
        Part::Code(len) => code_fault(alloc, bytes, places, offset, &rest[..len as usize]),
        Part::End => Ok(fault_unless(rest.is_empty(), ClassFault::TrailingBytes { offset })),
        _ => Ok(number_fault(bytes, places, field, number_in(bytes, field), later)),
    }
}

/// The fields behind one of them.
fn behind(row: &[Field], index: usize) -> &[Field]
    requires { index < length row.now }
    ensures { result.now ≡ drop (index + 1) row.now }
{
    &row[index + 1..]
}

/// The first fault of a row.
pub(crate) fn first_of(
    alloc: Global,
    bytes: &[u8],
    places: &[u32],
    row: &[Field],
) -> Result<Option<ClassFault>, Memory>
    requires { length bytes.now < 2 ^ 32 }
    ensures { IfOk result (λ r. First bytes.now places.now row.now r) }
{
    for (index, field) in row.iter().enumerate() {
        if let Some(fault) = fault_in(alloc, bytes, places, *field, behind(row, index))? {
            return Ok(Some(fault));
        }
    }
    Ok(None)
}
