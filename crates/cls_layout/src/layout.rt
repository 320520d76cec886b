//! The bytes of a class file, laid out as fields.
//! Each field brings the parts that are due behind it.

ghost use Rattle.std.specs.Prelude.{◌≡◌, ◌<◌, ◌≤◌, ◌+◌, ◌++◌, ◌^◌, false, length, drop, get_or, replicate, reverse, IfOk, OnOk};
ghost use Rattle.cls_layout.specs.Parts.{size, holds, is_tag, attributes_left, attribute_holds, content, brings, ends_row};
ghost use Rattle.cls_layout.specs.Row.{number, is_cut, pool_count, is_bad_entry, is_code_text, is_code, entered, LaysAll};
ghost use Rattle.cls_layout.specs.Laying.{Laid, Empty};

use crate::format::{Field, Layout, Part};
use byteorder::{BigEndian, ByteOrder};
use mg_text::{List, Memory};
use std::alloc::Global;

/// The bytes from a place on.
pub(crate) fn tail(bytes: &[u8], at: u32) -> &[u8]
    ensures { result.now ≡ drop at bytes.now }
{
    if at as usize <= bytes.len() {
        &bytes[at as usize..]
    } else {
        &[]
    }
}

/// How many bytes a part takes.
fn size_of(part: Part) -> u32
    ensures { result ≡ size part }
{
    match part {
        Part::Letters(len) | Part::Unread(len) | Part::Code(len) => len,
        Part::ContentEnd(_, _) | Part::End => 0,
        Part::Tag => 1,
        Part::Magic | Part::Int | Part::OtherLength | Part::CodeLength | Part::CodeSize => 4,
        _ => 2,
    }
}

/// Whether the bytes end in the field.
#[tactic(auto, unfolding(crate::specs::Row::is_cut))]
pub(crate) fn ends_in(bytes: &[u8], field: Field) -> bool
    ensures { result ≡ is_cut bytes.now field }
{
    tail(bytes, field.at).len() < size_of(field.part) as usize
}

/// The number that stands in a field of one, two or four bytes.
#[tactic(auto, unfolding(crate::specs::Row::number, crate::specs::Row::is_cut))]
pub(crate) fn number_in(bytes: &[u8], field: Field) -> u32
    requires { is_cut bytes.now field ≡ false }
    ensures one { size field.part ≡ 1 → result ≡ number bytes.now field }
    ensures two { size field.part ≡ 2 → result ≡ number bytes.now field }
    ensures four { size field.part ≡ 4 → result ≡ number bytes.now field }
{
    let rest = tail(bytes, field.at);
    match size_of(field.part) {
        1 => rest[0] as u32,
        2 => BigEndian::read_u16(rest) as u32,
        4 => BigEndian::read_u32(rest),
        _ => 0,
    }
}

/// The byte at a place, or 0 where there is none.
fn byte_at(bytes: &[u8], place: u32) -> u8
    ensures { result ≡ get_or bytes.now place 0 }
{
    if (place as usize) < bytes.len() {
        bytes[place as usize]
    } else {
        0
    }
}

/// The pool's count, which stands behind magic and version.
#[tactic(auto, unfolding(crate::specs::Row::pool_count))]
fn count_of(bytes: &[u8]) -> u32
    ensures { result ≡ pool_count bytes.now }
{
    256 * byte_at(bytes, 8) as u32 + byte_at(bytes, 9) as u32
}

/// Whether the constant of this number can't be one with that tag.
#[tactic(auto, unfolding(crate::specs::Row::is_bad_entry))]
pub(crate) fn is_wrong_entry(bytes: &[u8], places: &[u32], tag: u8, entry: u32) -> bool
    ensures { result ≡ is_bad_entry bytes.now places.now tag entry }
{
    if entry == 0 || entry >= count_of(bytes) {
        return true;
    }
    let index = entry as usize - 1;
    if index >= places.len() {
        return false;
    }
    byte_at(bytes, places[index]) != tag
}

/// Whether the constant that begins here is the text `Code`.
fn is_code_here(bytes: &[u8]) -> bool
    ensures { result ≡ is_code_text bytes.now }
{
    byte_at(bytes, 0) == 1
        && byte_at(bytes, 1) == 0
        && byte_at(bytes, 2) == 4
        && byte_at(bytes, 3) == 67
        && byte_at(bytes, 4) == 111
        && byte_at(bytes, 5) == 100
        && byte_at(bytes, 6) == 101
}

/// Whether the constant of this number is there, and is the text `Code`.
#[tactic(auto, unfolding(crate::specs::Row::is_code))]
pub(crate) fn is_code_name(bytes: &[u8], places: &[u32], entry: u32) -> bool
    ensures { result ≡ is_code bytes.now places.now entry }
{
    if entry == 0 {
        return false;
    }
    let index = entry as usize - 1;
    if index >= places.len() {
        return false;
    }
    is_code_here(tail(bytes, places[index]))
}

/// Whether a number is that of a kind of constant.
pub(crate) fn is_known_tag(tag: u32) -> bool
    ensures { result ≡ is_tag tag }
{
    tag == 1 || tag == 3 || tag == 7 || tag == 8 || tag == 9 || tag == 10 || tag == 12
}

/// Whether nothing can be laid out behind a part.
fn is_last(part: Part, number: u32, named: bool) -> bool
    ensures { result ≡ ends_row part number named }
{
    match part {
        Part::Tag => !is_known_tag(number),
        Part::Interfaces | Part::Handlers => number != 0,
        Part::MethodAttribute(_, seen) => seen && named,
        _ => false,
    }
}

/// Makes parts due, of which the last is next.
#[tactic(auto, using(crate::proofs::Stacks::stacked))]
fn add(due: &mut Vec<Part>, parts: &[Part]) -> Result<(), Memory>
    ensures { OnOk result (reverse due.new.items ≡ reverse parts.now ++ reverse due.old.items) }
{
    due.extend_from_slice(parts)?;
    Ok(())
}

/// Makes a part due so many times.
fn add_times(due: &mut Vec<Part>, part: Part, times: u32) -> Result<(), Memory>
    ensures { OnOk result (reverse due.new.items ≡ replicate times part ++ reverse due.old.items) }
{
    for _ in 0..times {
        due.push(part)?;
    }
    Ok(())
}

/// Makes due what a constant with this tag holds.
fn add_constant(due: &mut Vec<Part>, tag: u32) -> Result<(), Memory>
    ensures { OnOk result (reverse due.new.items ≡ holds tag ++ reverse due.old.items) }
{
    match tag {
        1 => add(due, &[Part::TextLength]),
        3 => add(due, &[Part::Int]),
        7 | 8 => add(due, &[Part::Reference(1)]),
        9 | 10 => add(due, &[Part::Reference(12), Part::Reference(7)]),
        12 => add(due, &[Part::Reference(1), Part::Reference(1)]),
        _ => Ok(()),
    }
}

/// Makes due the attributes of a method that are left.
fn add_left(due: &mut Vec<Part>, left: u32, seen: bool) -> Result<(), Memory>
    ensures { OnOk result (reverse due.new.items ≡ attributes_left left seen ++ reverse due.old.items) }
{
    if left == 0 {
        return Ok(());
    }
    add(due, &[Part::MethodAttribute(left - 1, seen)])
}

/// Makes due what an attribute of a method holds, and those that are left.
fn add_attribute(due: &mut Vec<Part>, left: u32, seen: bool, named: bool) -> Result<(), Memory>
    ensures { OnOk result (reverse due.new.items ≡ attribute_holds left seen named ++ reverse due.old.items) }
{
    if named {
        add_left(due, left, true)?;
        add(due, &[Part::CodeLength])
    } else {
        add_left(due, left, seen)?;
        add(due, &[Part::OtherLength])
    }
}

/// Makes due what a code holds.
fn add_content(due: &mut Vec<Part>, from: u32, length: u32) -> Result<(), Memory>
    ensures { OnOk result (reverse due.new.items ≡ content from length ++ reverse due.old.items) }
{
    add(
        due,
        &[
            Part::ContentEnd(from, length),
            Part::AttributeCount(false),
            Part::Handlers,
            Part::CodeSize,
            Part::Number,
            Part::Number,
        ],
    )
}

/// Makes due what a field of this part and number brings.
fn add_brought(due: &mut Vec<Part>, field: Field, number: u32, named: bool) -> Result<(), Memory>
    requires { field.at + size field.part < 2 ^ 32 }
    ensures { OnOk result (reverse due.new.items ≡ brings field.part field.at number named ++ reverse due.old.items) }
{
    match field.part {
        Part::PoolCount => add_times(due, Part::Tag, number.saturating_sub(1)),
        Part::Tag => add_constant(due, number),
        Part::TextLength => add(due, &[Part::Letters(number)]),
        Part::MemberCount(are_methods) => add_times(due, Part::Member(are_methods), number),
        Part::Member(is_method) => add(
            due,
            &[
                Part::AttributeCount(is_method),
                Part::Reference(1),
                Part::Reference(1),
            ],
        ),
        Part::AttributeCount(true) => add_left(due, number, false),
        Part::AttributeCount(false) => add_times(due, Part::AttributeName, number),
        Part::AttributeName => add(due, &[Part::OtherLength]),
        Part::MethodAttribute(left, seen) => add_attribute(due, left, seen, named),
        Part::OtherLength => add(due, &[Part::Unread(number)]),
        Part::CodeLength => add_content(due, field.at + 4, number),
        Part::CodeSize => add(due, &[Part::Code(number)]),
        _ => Ok(()),
    }
}

/// Keeps the place of the constant that begins with this part, if one does.
fn enter(places: &mut List<u32>, field: Field) -> Result<(), Memory>
    ensures { OnOk result (places.new.items ≡ entered field.part field.at places.old.items) }
{
    if matches!(field.part, Part::Tag) {
        places.push(field.at)?;
    }
    Ok(())
}

/// Lays out a part, and says whether more can be laid out.
fn lay(bytes: &[u8], layout: &mut Layout, part: Part) -> Result<bool, Memory>
    requires short { length bytes.now < 2 ^ 32 }
    requires within { layout.old.at ≤ length bytes.now }
    ensures { Laid bytes.now part layout.old layout.new result }
{
    let field = Field {
        at: layout.at,
        part,
    };
    layout.row.push(field)?;
    if ends_in(bytes, field) {
        return Ok(false);
    }
    let number = number_in(bytes, field);
    let named = is_code_name(bytes, layout.places.as_slice(), number);
    if is_last(part, number, named) {
        return Ok(false);
    }
    enter(&mut layout.places, field)?;
    add_brought(&mut layout.due, field, number, named)?;
    layout.at += size_of(part);
    Ok(true)
}

/// A layout with nothing laid out, and a class file due.
fn nothing_laid(alloc: Global) -> Result<Layout, Memory>
    ensures { IfOk result Empty }
{
    let mut due = Vec::new(alloc);
    add(
        &mut due,
        &[
            Part::End,
            Part::AttributeCount(false),
            Part::MemberCount(true),
            Part::MemberCount(false),
            Part::Interfaces,
            Part::Reference(7),
            Part::Reference(7),
            Part::Number,
            Part::PoolCount,
            Part::Major,
            Part::Minor,
            Part::Magic,
        ],
    )?;
    Ok(Layout {
        row: List::new(alloc),
        at: 0,
        places: List::new(alloc),
        due,
    })
}

/// All of the bytes, laid out as far as they can be.
pub(crate) fn lay_out(alloc: Global, bytes: &[u8]) -> Result<Layout, Memory>
    requires { length bytes.now < 2 ^ 32 }
    ensures { IfOk result (λ l. LaysAll bytes.now l.row.items l.places.items) }
{
    let mut layout = nothing_laid(alloc)?;
    'fields: while let Some(part) = layout.due.pop() {
        if !lay(bytes, &mut layout, part)? {
            return Ok(layout);
        }
    }
    Ok(layout)
}
