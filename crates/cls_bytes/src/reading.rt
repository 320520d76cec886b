//! The bytes of a class from left to right.
//! Each function gives a value and the bytes after it.

ghost use Rattle.std.specs.Prelude.{◌≡◌, ℕ, List, ◌+◌, ◌==◌, nat_lt, count_by, length, map, IfOk};
ghost use Rattle.mg_read.specs.Reader.{Gives};
ghost use Rattle.cls_tree.specs.View.{instrs_of as instrs_seen, inner_of, attr_of, member_of, class_of};
ghost use Rattle.cls_tree.specs.ClassFile.{names_code};
ghost use Rattle.cls_tree.specs.WellFormed.{is_code};
ghost use Rattle.cls_bytes.specs.Reading.{number_at, behind, text_at, tagged_at, const_at, counted, instrs_of, run_at, inner_at, body_at};
ghost use Rattle.cls_bytes.specs.Reading.{inners_at, content_at, code_at, other_at, attr_at, listed_at, pair_at, three_at, member_at};
ghost use Rattle.cls_bytes.specs.Reading.{members_at, behind_head, pool_at, class_at};

use byteorder::{BigEndian, ByteOrder};
use cls_code::{CodeFault, decode};
use cls_layout::{MAGIC, VERSION, text_in};
use cls_tree::{Attr, Class, Code, Const, Instr, Member};
use mg_read::ReadError;
use mg_text::{Bytes, List, Text};
use std::alloc::Global;

#[tactic(auto, unfolding(crate::specs::Reading::number_at))]
fn u2_of(bytes: &[u8]) -> Result<(u16, &[u8]), ReadError>
    ensures { Gives (λ x. (x.0, x.1.now)) result (number_at 2 bytes.now) }
{
    if bytes.len() < 2 {
        return Err(ReadError::Syntax);
    }
    Ok((BigEndian::read_u16(bytes), &bytes[2..]))
}

#[tactic(auto, unfolding(crate::specs::Reading::number_at))]
fn u4_of(bytes: &[u8]) -> Result<(u32, &[u8]), ReadError>
    ensures { Gives (λ x. (x.0, x.1.now)) result (number_at 4 bytes.now) }
{
    if bytes.len() < 4 {
        return Err(ReadError::Syntax);
    }
    Ok((BigEndian::read_u32(bytes), &bytes[4..]))
}

#[tactic(auto, unfolding(crate::specs::Reading::behind))]
fn behind_u2(bytes: &[u8], wanted: u16) -> Result<&[u8], ReadError>
    ensures { Gives (λ x. x.now) result (behind 2 wanted bytes.now) }
{
    let (number, rest) = u2_of(bytes)?;
    if number != wanted {
        return Err(ReadError::Syntax);
    }
    Ok(rest)
}

#[tactic(auto, unfolding(crate::specs::Reading::behind))]
fn behind_u4(bytes: &[u8], wanted: u32) -> Result<&[u8], ReadError>
    ensures { Gives (λ x. x.now) result (behind 4 wanted bytes.now) }
{
    let (number, rest) = u4_of(bytes)?;
    if number != wanted {
        return Err(ReadError::Syntax);
    }
    Ok(rest)
}

#[tactic(auto, unfolding(crate::specs::Reading::behind_head))]
fn after_head(bytes: &[u8]) -> Result<&[u8], ReadError>
    ensures { Gives (λ x. x.now) result (behind_head bytes.now) }
{
    let minor = behind_u4(bytes, MAGIC)?;
    let major = behind_u2(minor, 0)?;
    behind_u2(major, VERSION)
}

#[tactic(auto, unfolding(crate::specs::Reading::pair_at))]
fn pair_of(bytes: &[u8]) -> Result<((u16, u16), &[u8]), ReadError>
    ensures { Gives (λ x. (x.0, x.1.now)) result (pair_at bytes.now) }
{
    let (first, rest) = u2_of(bytes)?;
    let (second, rest) = u2_of(rest)?;
    Ok(((first, second), rest))
}

#[tactic(auto, unfolding(crate::specs::Reading::three_at))]
fn three_of(bytes: &[u8]) -> Result<((u16, u16, u16), &[u8]), ReadError>
    ensures { Gives (λ x. (x.0, x.1.now)) result (three_at bytes.now) }
{
    let (first, rest) = u2_of(bytes)?;
    let (second, rest) = u2_of(rest)?;
    let (third, rest) = u2_of(rest)?;
    Ok(((first, second, third), rest))
}

#[tactic(auto, unfolding(crate::specs::Reading::text_at))]
fn text_of(alloc: Global, bytes: &[u8]) -> Result<(Text, &[u8]), ReadError>
    ensures { Gives (λ x. (x.0, x.1.now)) result (text_at bytes.now) }
{
    let (len, rest) = u2_of(bytes)?;
    let len = len as usize;
    if rest.len() < len {
        return Err(ReadError::Syntax);
    }
    let (text, rest) = rest.split_at(len);
    let text = text_in(alloc, text)?;
    Ok((text, rest))
}

// What a constant with this tag holds.
#[tactic(auto, unfolding(crate::specs::Reading::tagged_at, crate::specs::Reading::int_at, crate::specs::Reading::one_at, crate::specs::Reading::two_at))]
fn tagged_of(alloc: Global, tag: u8, bytes: &[u8]) -> Result<(Const, &[u8]), ReadError>
    ensures { Gives (λ x. (x.0, x.1.now)) result (tagged_at tag bytes.now) }
{
    match tag {
        1 => {
            let (text, rest) = text_of(alloc, bytes)?;
            Ok((Const::Utf8(text), rest))
        }
        3 => {
            let (number, rest) = u4_of(bytes)?;
            Ok((Const::Integer(number.cast_signed()), rest))
        }
        7 => {
            let (name, rest) = u2_of(bytes)?;
            Ok((Const::Class(name), rest))
        }
        8 => {
            let (text, rest) = u2_of(bytes)?;
            Ok((Const::Text(text), rest))
        }
        9 => {
            let ((class, member), rest) = pair_of(bytes)?;
            Ok((Const::Field(class, member), rest))
        }
        10 => {
            let ((class, member), rest) = pair_of(bytes)?;
            Ok((Const::Method(class, member), rest))
        }
        12 => {
            let ((name, descriptor), rest) = pair_of(bytes)?;
            Ok((Const::NameAndType(name, descriptor), rest))
        }
        _ => Err(ReadError::Syntax),
    }
}

#[tactic(auto, unfolding(crate::specs::Reading::const_at))]
fn const_of(alloc: Global, bytes: &[u8]) -> Result<(Const, &[u8]), ReadError>
    ensures { Gives (λ x. (x.0, x.1.now)) result (const_at bytes.now) }
{
    match bytes {
        [] => Err(ReadError::Syntax),
        [tag, rest @ ..] => tagged_of(alloc, *tag, rest),
    }
}

fn consts_of(alloc: Global, count: u16, bytes: &[u8]) -> Result<(List<Const>, &[u8]), ReadError>
    ensures { Gives (λ x. (x.0.items, x.1.now)) result (counted const_at count bytes.now) }
{
    let mut constants = List::new(alloc);
    let mut rest = bytes;
    for _ in 0..count {
        let (constant, after) = const_of(alloc, rest)?;
        constants.push(constant)?;
        rest = after;
    }
    Ok((constants, rest))
}

#[tactic(auto, unfolding(crate::specs::Reading::pool_at))]
fn pool_of(alloc: Global, bytes: &[u8]) -> Result<(List<Const>, &[u8]), ReadError>
    ensures { Gives (λ x. (x.0.items, x.1.now)) result (pool_at bytes.now) }
{
    let (count, rest) = u2_of(bytes)?;
    if count == 0 {
        return Err(ReadError::Syntax);
    }
    consts_of(alloc, count - 1, rest)
}

/// The instructions that all of the bytes spell.
#[tactic(auto, using(crate::proofs::Codes::decoded_none, crate::proofs::Codes::decoded_some))]
fn instrs_in(alloc: Global, bytes: &[u8]) -> Result<List<Instr>, ReadError>
    ensures { Gives (λ x. instrs_seen x.items) result (instrs_of bytes.now) }
{
    match decode(alloc, bytes) {
        Ok(instrs) => Ok(instrs),
        Err(CodeFault::Memory) => Err(ReadError::Memory),
        Err(_) => Err(ReadError::Syntax),
    }
}

/// A length, and as many bytes.
#[tactic(auto, unfolding(crate::specs::Reading::run_at))]
fn run_of(bytes: &[u8]) -> Result<(&[u8], &[u8]), ReadError>
    ensures { Gives (λ x. (x.0.now, x.1.now)) result (run_at bytes.now) }
{
    let (len, rest) = u4_of(bytes)?;
    let len = len as usize;
    if rest.len() < len {
        return Err(ReadError::Syntax);
    }
    Ok(rest.split_at(len))
}

/// Another attribute behind its name.
#[tactic(auto, using(cls_tree::proofs::Views::views), unfolding(crate::specs::Reading::other_at))]
fn other_of(alloc: Global, name: u16, bytes: &[u8]) -> Result<(Attr, &[u8]), ReadError>
    ensures { Gives (λ x. (attr_of x.0, x.1.now)) result (other_at name bytes.now) }
{
    let (run, rest) = run_of(bytes)?;
    let bytes = Bytes::of(alloc, run)?;
    Ok((Attr::Other { name, bytes }, rest))
}

/// An attribute of a code.
#[tactic(auto, using(cls_tree::proofs::Views::views), unfolding(crate::specs::Reading::inner_at))]
fn inner_from(alloc: Global, bytes: &[u8]) -> Result<(Attr, &[u8]), ReadError>
    ensures { Gives (λ x. (inner_of x.0, x.1.now)) result (inner_at bytes.now) }
{
    let (name, rest) = u2_of(bytes)?;
    let (run, rest) = run_of(rest)?;
    let bytes = Bytes::of(alloc, run)?;
    Ok((Attr::Other { name, bytes }, rest))
}

/// So many attributes of a code.
fn inners_of(alloc: Global, count: u16, bytes: &[u8]) -> Result<(List<Attr>, &[u8]), ReadError>
    ensures { Gives (λ x. (map inner_of x.0.items, x.1.now)) result (counted inner_at count bytes.now) }
{
    let mut inners = List::new(alloc);
    let mut rest = bytes;
    for _ in 0..count {
        let (inner, after) = inner_from(alloc, rest)?;
        inners.push(inner)?;
        rest = after;
    }
    Ok((inners, rest))
}

/// No handlers, and the attributes of a code.
#[tactic(auto, unfolding(crate::specs::Reading::inners_at, crate::specs::Reading::listed_at))]
fn inners_behind(alloc: Global, bytes: &[u8]) -> Result<(List<Attr>, &[u8]), ReadError>
    ensures { Gives (λ x. (map inner_of x.0.items, x.1.now)) result (inners_at bytes.now) }
{
    let rest = behind_u2(bytes, 0)?;
    let (count, rest) = u2_of(rest)?;
    inners_of(alloc, count, rest)
}

/// The instructions of a code, behind their length.
#[tactic(auto, unfolding(crate::specs::Reading::body_at))]
fn body_of(alloc: Global, bytes: &[u8]) -> Result<(List<Instr>, &[u8]), ReadError>
    ensures { Gives (λ x. (instrs_seen x.0.items, x.1.now)) result (body_at bytes.now) }
{
    let (code, rest) = run_of(bytes)?;
    let instrs = instrs_in(alloc, code)?;
    Ok((instrs, rest))
}

/// What a code attribute holds.
#[tactic(auto, unfolding(crate::specs::Reading::content_at))]
fn content_of(alloc: Global, name: u16, bytes: &[u8]) -> Result<(Attr, &[u8]), ReadError>
    ensures { Gives (λ x. (attr_of x.0, x.1.now)) result (content_at name bytes.now) }
{
    let (sizes, rest) = pair_of(bytes)?;
    let (instrs, rest) = body_of(alloc, rest)?;
    let (attributes, rest) = inners_behind(alloc, rest)?;
    let code = Code {
        name,
        max_stack: sizes.0,
        max_locals: sizes.1,
        instrs,
        attributes,
    };
    Ok((Attr::Code(code), rest))
}

/// A code behind its name.
#[tactic(auto, unfolding(crate::specs::Reading::code_at))]
fn code_of(alloc: Global, name: u16, bytes: &[u8]) -> Result<(Attr, &[u8]), ReadError>
    ensures { Gives (λ x. (attr_of x.0, x.1.now)) result (code_at name bytes.now) }
{
    let (len, front) = u4_of(bytes)?;
    let (content, rest) = content_of(alloc, name, front)?;
    if !is_sum(front.len(), len, rest.len()) {
        return Err(ReadError::Syntax);
    }
    Ok((content, rest))
}

/// Whether the whole is the sum of its parts.
fn is_sum(all: usize, first: u32, second: usize) -> bool
    ensures { result ≡ (all == first + second) }
{
    all >= second && all - second == first as usize
}

/// Whether a number is that of the name of code.
#[tactic(auto, unfolding(cls_tree::specs::ClassFile::names_code))]
fn is_code_name(pool: &[Const], number: u16) -> bool
    ensures { result ≡ names_code pool.now number }
{
    if number == 0 || number as usize > pool.len() {
        return false;
    }
    match &pool[number as usize - 1] {
        Const::Utf8(text) => text.as_str() == "Code",
        _ => false,
    }
}

/// An attribute, of a method or not.
#[tactic(auto, unfolding(crate::specs::Reading::attr_at))]
fn attribute_of<'a>(
    alloc: Global,
    pool: &[Const],
    of_method: bool,
    bytes: &'a [u8],
) -> Result<(Attr, &'a [u8]), ReadError>
    ensures { Gives (λ x. (attr_of x.0, x.1.now)) result (attr_at pool.now of_method bytes.now) }
{
    let (name, rest) = u2_of(bytes)?;
    if of_method && is_code_name(pool, name) {
        code_of(alloc, name, rest)
    } else {
        other_of(alloc, name, rest)
    }
}

/// So many attributes.
fn attrs_of<'a>(
    alloc: Global,
    pool: &[Const],
    of_method: bool,
    count: u16,
    bytes: &'a [u8],
) -> Result<(List<Attr>, &'a [u8]), ReadError>
    ensures { Gives (λ x. (map attr_of x.0.items, x.1.now)) result (counted (attr_at pool.now of_method) count bytes.now) }
{
    let mut attributes = List::new(alloc);
    let mut rest = bytes;
    for _ in 0..count {
        let (attribute, after) = attribute_of(alloc, pool, of_method, rest)?;
        attributes.push(attribute)?;
        rest = after;
    }
    Ok((attributes, rest))
}

/// Attributes behind their count.
#[tactic(auto, unfolding(crate::specs::Reading::listed_at))]
fn attrs_behind<'a>(
    alloc: Global,
    pool: &[Const],
    of_method: bool,
    bytes: &'a [u8],
) -> Result<(List<Attr>, &'a [u8]), ReadError>
    ensures { Gives (λ x. (map attr_of x.0.items, x.1.now)) result (listed_at (attr_at pool.now of_method) bytes.now) }
{
    let (count, rest) = u2_of(bytes)?;
    attrs_of(alloc, pool, of_method, count, rest)
}

/// Whether there are two codes or more among these attributes.
fn has_two_codes(attributes: &[Attr]) -> bool
    ensures { result ≡ nat_lt 1 (count_by is_code (map attr_of attributes.now)) }
{
    let mut codes = 0usize;
    for attribute in attributes {
        if is_coded(attribute) {
            codes += 1;
        }
    }
    codes > 1
}

/// Whether an attribute is code.
#[tactic(auto, using(cls_tree::proofs::Views::views))]
fn is_coded(attribute: &Attr) -> bool
    ensures { result ≡ is_code (attr_of attribute.now) }
{
    match attribute {
        Attr::Code(_) => true,
        Attr::Other { .. } => false,
    }
}

/// A field or a method.
#[tactic(auto, unfolding(crate::specs::Reading::member_at))]
fn member_from<'a>(
    alloc: Global,
    pool: &[Const],
    is_method: bool,
    bytes: &'a [u8],
) -> Result<(Member, &'a [u8]), ReadError>
    ensures { Gives (λ x. (member_of x.0, x.1.now)) result (member_at pool.now is_method bytes.now) }
{
    let ((access, name, descriptor), rest) = three_of(bytes)?;
    let (attributes, rest) = attrs_behind(alloc, pool, is_method, rest)?;
    if has_two_codes(attributes.as_slice()) {
        return Err(ReadError::Syntax);
    }
    let member = Member {
        access,
        name,
        descriptor,
        attributes,
    };
    Ok((member, rest))
}

/// So many fields or methods.
fn members_of<'a>(
    alloc: Global,
    pool: &[Const],
    are_methods: bool,
    count: u16,
    bytes: &'a [u8],
) -> Result<(List<Member>, &'a [u8]), ReadError>
    ensures { Gives (λ x. (map member_of x.0.items, x.1.now)) result (counted (member_at pool.now are_methods) count bytes.now) }
{
    let mut members = List::new(alloc);
    let mut rest = bytes;
    for _ in 0..count {
        let (member, after) = member_from(alloc, pool, are_methods, rest)?;
        members.push(member)?;
        rest = after;
    }
    Ok((members, rest))
}

/// Fields or methods behind their count.
#[tactic(auto, unfolding(crate::specs::Reading::listed_at))]
fn members_behind<'a>(
    alloc: Global,
    pool: &[Const],
    are_methods: bool,
    bytes: &'a [u8],
) -> Result<(List<Member>, &'a [u8]), ReadError>
    ensures { Gives (λ x. (map member_of x.0.items, x.1.now)) result (listed_at (member_at pool.now are_methods) bytes.now) }
{
    let (count, rest) = u2_of(bytes)?;
    members_of(alloc, pool, are_methods, count, rest)
}

/// The fields, methods and attributes of a class.
#[tactic(auto, unfolding(crate::specs::Reading::members_at))]
fn all_members_of<'a>(
    alloc: Global,
    pool: &[Const],
    bytes: &'a [u8],
) -> Result<((List<Member>, List<Member>, List<Attr>), &'a [u8]), ReadError>
    ensures { Gives (λ x. ((map member_of x.0.0.items, map member_of x.0.1.items, map attr_of x.0.2.items), x.1.now)) result
        (members_at pool.now bytes.now) }
{
    let (fields, rest) = members_behind(alloc, pool, false, bytes)?;
    let (methods, rest) = members_behind(alloc, pool, true, rest)?;
    let (attributes, rest) = attrs_behind(alloc, pool, false, rest)?;
    Ok(((fields, methods, attributes), rest))
}

/// The class that all of the bytes spell.
#[tactic(auto, unfolding(crate::specs::Reading::class_at))]
pub(crate) fn whole_class(alloc: Global, bytes: &[u8]) -> Result<Class, ReadError>
    ensures { Gives class_of result (class_at bytes.now) }
{
    let rest = after_head(bytes)?;
    let (pool, rest) = pool_of(alloc, rest)?;
    let ((access, this_class, super_class), rest) = three_of(rest)?;
    let rest = behind_u2(rest, 0)?;
    let ((fields, methods, attributes), rest) = all_members_of(alloc, pool.as_slice(), rest)?;
    if !rest.is_empty() {
        return Err(ReadError::Syntax);
    }
    Ok(Class {
        pool,
        access,
        this_class,
        super_class,
        fields,
        methods,
        attributes,
    })
}
