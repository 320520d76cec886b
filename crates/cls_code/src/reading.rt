//! Instructions out of bytes: why none stands at a place, or which one stands.
//! A code is read from the left, an instruction after the other.

ghost use Rattle.std.specs.Prelude.{◌≡◌, ℕ, ◌+◌, ◌*◌, ◌<◌, ◌≤◌, ◌^◌, ◌∷◌, [], ◌++◌, length, drop, take, Some, None, Option, false, IfOk};
ghost use Rattle.std.specs.Prelude.{nat_lt, ◌==◌, if◌then◌else◌};
ghost use Rattle.std.specs.List.{list_any};
ghost use Rattle.cls_tree.specs.Opcodes.{form_of as form_at};
ghost use Rattle.cls_tree.specs.View.{args_of, instr_of, instrs_of};
ghost use Rattle.cls_tree.specs.Layout.{pad};
ghost use Rattle.cls_code.specs.Code.{s4_at, cases_between, cases_of, fixed, offsets, room, is_bad_switch, unfit, unfit_args, Decodes};
ghost use Rattle.cls_code.specs.Code.{Fault};
ghost use Rattle.cls_code.specs.Inner.{u1_in, u2_in, s1_in, s2_in, words, args_in, args_at, instr_in, room_at, size_in, ArePlacedOr};

use crate::CodeFault;
use byteorder::{BigEndian, ByteOrder};
use cls_tree::{Args, Form, Instr, form_of};
use mg_text::{List, Memory};
use std::alloc::Global;

/// The bytes from a place on.
fn tail(bytes: &[u8], at: usize) -> &[u8]
    ensures { result.now ≡ drop at bytes.now }
{
    if at <= bytes.len() { &bytes[at..] } else { &[] }
}

/// How many zero bytes stand behind the opcode of a table.
pub(crate) fn pad_at(place: usize) -> usize
    ensures value { result ≡ pad place }
    ensures bound { result ≤ 3 }
{
    3 - place % 4
}

/// The signed number of four bytes that begins there.
fn s4_of(bytes: &[u8], at: usize) -> i32
    requires { at + 4 ≤ length bytes.now }
    ensures { result ≡ s4_at at bytes.now }
{
    BigEndian::read_i32(&bytes[at..])
}

/// How many numbers there are from the lowest to the highest.
fn cases_from(low: i32, high: i32) -> usize
    ensures value { result ≡ cases_between low high }
    ensures bound { result ≤ 2 ^ 32 }
{
    if high < low {
        return 0;
    }
    high.abs_diff(low) as usize + 1
}

/// How many offsets a table has.
fn cases_at(place: usize, rest: &[u8]) -> usize
    requires { pad place + 12 ≤ length rest.now }
    ensures value { result ≡ cases_of place rest.now }
    ensures bound { result ≤ 2 ^ 32 }
{
    let pad = pad_at(place);
    cases_from(s4_of(rest, pad + 4), s4_of(rest, pad + 8))
}

/// Whether a byte isn't 0.
fn is_any_set(bytes: &[u8]) -> bool
    ensures { result ≡ list_any (λ b. nat_lt 0 b) bytes.now }
{
    bytes.iter().any(|byte| *byte > 0)
}

/// How many bytes are to stand behind an opcode, but for the offsets of a table.
fn fixed_of(place: usize, form: Form) -> usize
    ensures value { result ≡ fixed place form }
    ensures bound { result ≤ 15 }
{
    match form {
        Form::Nothing => 0,
        Form::Byte | Form::Local | Form::NearConstant => 1,
        Form::Short | Form::Increment | Form::Jump => 2,
        Form::Constant | Form::Field | Form::Method | Form::Class => 2,
        Form::Table => pad_at(place) + 12,
    }
}

/// How many offsets are to follow.
#[tactic(auto, using(crate::proofs::Forms::no_offsets))]
fn offsets_of(place: usize, form: Form, rest: &[u8]) -> usize
    requires { fixed place form ≤ length rest.now }
    ensures value { result ≡ offsets place form rest.now }
    ensures bound { result ≤ 2 ^ 32 }
{
    match form {
        Form::Table => cases_at(place, rest),
        _ => 0,
    }
}

/// How many bytes are to stand behind an opcode in all.
fn room_of(place: usize, form: Form, rest: &[u8]) -> usize
    requires { fixed place form ≤ length rest.now }
    ensures value { result ≡ room place form rest.now }
    ensures bound { result ≤ 2 ^ 36 }
{
    fixed_of(place, form) + 4 * offsets_of(place, form, rest)
}

/// Whether the bytes end in the arguments of this form.
fn is_cut(place: usize, form: Form, rest: &[u8]) -> bool
    ensures { result ≡ nat_lt (length rest.now) (room place form rest.now) }
{
    if rest.len() < fixed_of(place, form) {
        return true;
    }
    rest.len() < room_of(place, form, rest)
}

/// Whether these are the arguments of a table that is none.
#[tactic(auto, using(crate::proofs::Forms::no_switch))]
fn is_bad(place: usize, form: Form, rest: &[u8]) -> bool
    requires { fixed place form ≤ length rest.now }
    ensures { result ≡ is_bad_switch place form rest.now }
{
    match form {
        Form::Table => is_any_set(&rest[..pad_at(place)]) || cases_at(place, rest) == 0,
        _ => false,
    }
}

/// Why no arguments of this form stand there, if none do.
fn unfit_args_at(place: usize, form: Option<Form>, rest: &[u8]) -> Option<CodeFault>
    requires { place < 2 ^ 32 }
    ensures { result ≡ unfit_args place form rest.now }
{
    let offset = place as u32;
    let Some(form) = form else {
        return Some(CodeFault::UnknownOpcode { offset });
    };
    if is_cut(place, form, rest) {
        return Some(CodeFault::Short { offset });
    }
    if is_bad(place, form, rest) {
        return Some(CodeFault::BadSwitch { offset });
    }
    None
}

/// Why no instruction stands at this place, where the code goes on with these bytes; `None` where one does.
#[tactic(auto, unfolding(crate::specs::Code::unfit))]
pub(crate) fn unfit_at(place: usize, bytes: &[u8]) -> Option<CodeFault>
    requires { place < 2 ^ 32 }
    ensures { result ≡ unfit place bytes.now }
{
    match bytes {
        [] => Some(CodeFault::Short {
            offset: place as u32,
        }),
        [op, rest @ ..] => unfit_args_at(place, form_of(*op), rest),
    }
}

/// So many signed numbers of four bytes.
#[tactic(auto, using(crate::proofs::Words::words_more))]
fn words_of(alloc: Global, count: usize, bytes: &[u8]) -> Result<List<i32>, Memory>
    requires { 4 * count ≤ length bytes.now }
    ensures { IfOk result (λ l. l.items ≡ words count bytes.now) }
{
    let mut numbers = with_room(alloc, count)?;
    for index in 0..count {
        numbers.push(s4_of(bytes, 4 * index))?;
    }
    Ok(numbers)
}

/// The arguments of a table behind an opcode at this place.
fn table_of(alloc: Global, place: usize, rest: &[u8]) -> Result<Args, Memory>
    requires { room place Form.Table rest.now ≤ length rest.now }
    ensures { IfOk result (λ a. args_of a ≡ args_in place Form.Table rest.now) }
{
    let pad = pad_at(place);
    let offsets = words_of(alloc, cases_at(place, rest), tail(rest, pad + 12))?;
    Ok(Args::Table {
        default: s4_of(rest, pad),
        low: s4_of(rest, pad + 4),
        offsets,
    })
}

/// The arguments of this form behind an opcode at this place.
fn args_from(alloc: Global, place: usize, form: Form, rest: &[u8]) -> Result<Args, Memory>
    requires { room place form rest.now ≤ length rest.now }
    ensures { IfOk result (λ a. args_of a ≡ args_in place form rest.now) }
{
    let args = match form {
        Form::Nothing => Args::None,
        Form::Byte => Args::Number(rest[0].cast_signed() as i16),
        Form::Short => Args::Number(BigEndian::read_i16(rest)),
        Form::Local => Args::Local(rest[0]),
        Form::Increment => Args::Add(rest[0], rest[1].cast_signed()),
        Form::Jump => Args::Jump(BigEndian::read_i16(rest)),
        Form::Table => table_of(alloc, place, rest)?,
        Form::NearConstant => Args::Pool(rest[0] as u16),
        Form::Constant | Form::Field | Form::Method | Form::Class => {
            Args::Pool(BigEndian::read_u16(rest))
        }
    };
    Ok(args)
}

/// The instruction at the front of bytes, and how many bytes it takes.
#[tactic(auto, unfolding(crate::specs::Code::unfit, crate::specs::Inner::instr_in, crate::specs::Inner::size_in))]
fn instr_at(alloc: Global, place: usize, bytes: &[u8]) -> Result<(Instr, usize), Memory>
    requires { unfit place bytes.now ≡ None }
    ensures instr { IfOk result (λ r. instr_of r.0 ≡ instr_in place bytes.now) }
    ensures size { IfOk result (λ r. r.1 ≡ size_in place bytes.now) }
{
    let [op, rest @ ..] = bytes else {
        unreachable!()
    };
    let Some(form) = form_of(*op) else {
        unreachable!()
    };
    let args = args_from(alloc, place, form, rest)?;
    let size = 1 + room_of(place, form, rest);
    Ok((Instr { op: *op, args }, size))
}

/// Instructions, and the places at which they start.
#[derive(Drop)]
pub struct Placed {
    pub instrs: List<Instr>,
    pub starts: List<usize>,
}

/// An empty list with room for so many.
fn with_room<T: Drop>(alloc: Global, count: usize) -> Result<List<T>, Memory>
    ensures { IfOk result (λ l. l.items ≡ []) }
{
    let mut items = List::new(alloc);
    items.reserve(count)?;
    Ok(items)
}

/// The instructions that stand one behind the other, up to the end. There is room from the start for half as many as bytes.
pub(crate) fn placed_in(alloc: Global, bytes: &[u8]) -> Result<Placed, CodeFault>
    requires { length bytes.now ≤ 32767 }
    ensures { ArePlacedOr bytes.now result }
{
    if bytes.is_empty() {
        return Err(CodeFault::Short { offset: 0 });
    }
    let mut instrs = with_room(alloc, bytes.len() / 2 + 1)?;
    let mut starts = with_room(alloc, bytes.len() / 2 + 1)?;
    let mut place = 0;
    'code: while place < bytes.len() {
        let rest = tail(bytes, place);
        if let Some(fault) = unfit_at(place, rest) {
            return Err(fault);
        }
        let (instr, size) = instr_at(alloc, place, rest)?;
        starts.push(place)?;
        instrs.push(instr)?;
        place += size;
    }
    Ok(Placed { instrs, starts })
}
