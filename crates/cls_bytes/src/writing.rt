//! The bytes of a class, part by part.
//! A code that can't be encoded refuses the class.

ghost use Rattle.std.specs.Prelude.{◌≡◌, ◌+◌, ◌≤◌, ◌<◌, ◌^◌, ◌∷◌, [], ◌++◌, length, map, None, IfOk, OnOk};
ghost use Rattle.std.specs.List.{flat_map, AllByRecursion};
ghost use Rattle.cls_tree.specs.Tree.{Coded};
ghost use Rattle.cls_tree.specs.View.{code_of as code_seen, attr_of, inner_of, member_of, class_of, instrs_of};
ghost use Rattle.cls_tree.specs.Layout.{u2, u4, text_bytes, const_bytes, code_bytes, inner_bytes, content_bytes, attr_bytes, attrs_bytes};
ghost use Rattle.cls_tree.specs.Layout.{member_bytes, members_bytes};
ghost use Rattle.cls_tree.specs.Fits.{Fits, FitsConst, FitsInstrs, FitsInner, FitsCode, FitsAttr, FitsMember, Counted};
ghost use Rattle.cls_tree.specs.declared.class.Const.TheVariants.{Utf8};
ghost use Rattle.cls_code.specs.Code.{encoding};
ghost use Rattle.cls_bytes.specs.Answer.{attr_refusal, attrs_refusal, members_refusal, writing, IsWritten};
ghost use Rattle.cls_bytes.specs.Puts.{Puts, Encodes};

use crate::WriteFault;
use crate::texts::modified_of;
use cls_code::{CodeFault, encode, put_s4, put_u1, put_u2, put_u4};
use cls_layout::{MAGIC, VERSION};
use cls_tree::{Attr, Class, Code, Const, Instr, Member};
use mg_text::{Bytes, Memory};
use std::alloc::Global;

/// A tag, and the number of a constant.
fn put_one(out: &mut Bytes, tag: u8, number: u16) -> Result<(), Memory>
    ensures { OnOk result (out.new ≡ out.old ++ tag ∷ u2 number) }
{
    out.extend(&[tag])?;
    put_u2(out, number)?;
    Ok(())
}

/// A tag, and the numbers of two constants.
fn put_two(out: &mut Bytes, tag: u8, first: u16, second: u16) -> Result<(), Memory>
    ensures { OnOk result (out.new ≡ out.old ++ tag ∷ (u2 first ++ u2 second)) }
{
    out.extend(&[tag])?;
    put_u2(out, first)?;
    put_u2(out, second)?;
    Ok(())
}

/// A text in modified UTF-8, behind a tag and the count of its bytes.
fn put_text(alloc: Global, out: &mut Bytes, text: &str) -> Result<(), Memory>
    requires { FitsConst (Utf8 text.now) }
    ensures { OnOk result (out.new ≡ out.old ++ 1 ∷ text_bytes text.now) }
{
    let bytes = modified_of(alloc, text)?;
    out.extend(&[1])?;
    put_u2(out, bytes.len() as u16)?;
    out.extend(bytes.as_slice())?;
    Ok(())
}

fn put_const(alloc: Global, out: &mut Bytes, constant: &Const) -> Result<(), Memory>
    requires { FitsConst constant.now }
    ensures { OnOk result (out.new ≡ out.old ++ const_bytes constant.now) }
{
    match constant {
        Const::Utf8(text) => put_text(alloc, out, text.as_str()),
        Const::Integer(number) => {
            out.extend(&[3])?;
            put_s4(out, *number)
        }
        Const::Class(name) => put_one(out, 7, *name),
        Const::Text(text) => put_one(out, 8, *text),
        Const::Field(class, member) => put_two(out, 9, *class, *member),
        Const::Method(class, member) => put_two(out, 10, *class, *member),
        Const::NameAndType(name, descriptor) => put_two(out, 12, *name, *descriptor),
    }
}

fn put_consts(alloc: Global, out: &mut Bytes, constants: &[Const]) -> Result<(), Memory>
    requires { AllByRecursion FitsConst constants.now }
    ensures { OnOk result (out.new ≡ out.old ++ flat_map const_bytes constants.now) }
{
    for constant in constants {
        put_const(alloc, out, constant)?;
    }
    Ok(())
}

/// The bytes of instructions.
fn encoded(alloc: Global, instrs: &[Instr]) -> Result<Bytes, WriteFault>
    requires { FitsInstrs (instrs_of instrs.now) }
    ensures { Encodes (encoding (instrs_of instrs.now)) result }
{
    match encode(alloc, instrs) {
        Ok(bytes) => Ok(bytes),
        Err(CodeFault::Memory) => Err(WriteFault::Memory),
        Err(fault) => Err(WriteFault::Code(fault)),
    }
}

/// An attribute of a code.
#[tactic(auto, using(cls_tree::proofs::Views::views))]
fn put_inner(out: &mut Bytes, attribute: &Attr) -> Result<(), Memory>
    requires { FitsInner (inner_of attribute.now) }
    ensures { OnOk result (out.new ≡ out.old ++ inner_bytes (inner_of attribute.now)) }
{
    match attribute {
        Attr::Code(_) => unreachable!(),
        Attr::Other { name, bytes } => put_run(out, *name, bytes),
    }
}

/// A name, and bytes behind their length.
fn put_run(out: &mut Bytes, name: u16, bytes: &Bytes) -> Result<(), Memory>
    requires { length bytes.now < 2 ^ 32 }
    ensures { OnOk result (out.new ≡ out.old ++ (u2 name ++ (u4 (length bytes.now) ++ bytes.now))) }
{
    put_u2(out, name)?;
    put_u4(out, bytes.len() as u32)?;
    out.extend(bytes.as_slice())?;
    Ok(())
}

fn put_inners(out: &mut Bytes, attributes: &[Attr]) -> Result<(), Memory>
    requires { AllByRecursion FitsInner (map inner_of attributes.now) }
    ensures { OnOk result (out.new ≡ out.old ++ flat_map inner_bytes (map inner_of attributes.now)) }
{
    for attribute in attributes {
        put_inner(out, attribute)?;
    }
    Ok(())
}

/// What a code attribute holds, its instructions encoded already.
fn content_of(alloc: Global, code: &Code, instrs: &Bytes) -> Result<Bytes, Memory>
    requires fits { FitsCode (code_seen code.now) }
    requires encoded { instrs.now ≡ code_bytes (code_seen code.now).instrs }
    ensures { IfOk result (λ b. b ≡ content_bytes (code_seen code.now)) }
{
    let mut out = Bytes::new(alloc);
    put_u2(&mut out, code.max_stack)?;
    put_u2(&mut out, code.max_locals)?;
    put_u4(&mut out, instrs.len() as u32)?;
    out.extend(instrs.as_slice())?;
    put_u2(&mut out, 0)?;
    put_u2(&mut out, code.attributes.len() as u16)?;
    put_inners(&mut out, code.attributes.as_slice())?;
    Ok(out)
}

fn put_code(alloc: Global, out: &mut Bytes, code: &Code) -> Result<(), WriteFault>
    requires { FitsCode (code_seen code.now) }
    ensures { Puts out.old out.new (attr_bytes (Coded (code_seen code.now))) (attr_refusal (Coded (code_seen code.now)) None) result }
{
    let instrs = encoded(alloc, code.instrs.as_slice())?;
    let content = content_of(alloc, code, &instrs)?;
    put_run(out, code.name, &content)?;
    Ok(())
}

#[tactic(auto, using(cls_tree::proofs::Views::views))]
fn put_attr(alloc: Global, out: &mut Bytes, attribute: &Attr) -> Result<(), WriteFault>
    requires { FitsAttr (attr_of attribute.now) }
    ensures { Puts out.old out.new (attr_bytes (attr_of attribute.now)) (attr_refusal (attr_of attribute.now) None) result }
{
    match attribute {
        Attr::Code(code) => put_code(alloc, out, code),
        Attr::Other { name, bytes } => {
            put_run(out, *name, bytes)?;
            Ok(())
        }
    }
}

/// Attributes behind their count.
fn put_attrs(alloc: Global, out: &mut Bytes, attributes: &[Attr]) -> Result<(), WriteFault>
    requires { Counted FitsAttr (map attr_of attributes.now) }
    ensures { Puts out.old out.new (attrs_bytes (map attr_of attributes.now)) (attrs_refusal (map attr_of attributes.now) None) result }
{
    put_u2(out, attributes.len() as u16)?;
    for attribute in attributes {
        put_attr(alloc, out, attribute)?;
    }
    Ok(())
}

fn put_member(alloc: Global, out: &mut Bytes, member: &Member) -> Result<(), WriteFault>
    requires { FitsMember (member_of member.now) }
    ensures { Puts out.old out.new (member_bytes (member_of member.now)) (attrs_refusal (map attr_of member.now.attributes.items) None)
        result }
{
    put_u2(out, member.access)?;
    put_u2(out, member.name)?;
    put_u2(out, member.descriptor)?;
    put_attrs(alloc, out, member.attributes.as_slice())
}

/// Fields or methods behind their count.
fn put_members(alloc: Global, out: &mut Bytes, members: &[Member]) -> Result<(), WriteFault>
    requires { Counted FitsMember (map member_of members.now) }
    ensures { Puts out.old out.new (members_bytes (map member_of members.now)) (members_refusal (map member_of members.now) None) result }
{
    put_u2(out, members.len() as u16)?;
    for member in members {
        put_member(alloc, out, member)?;
    }
    Ok(())
}

/// Magic, version 49.0, the pool and its count plus one.
fn put_front(alloc: Global, out: &mut Bytes, class: &Class) -> Result<(), Memory>
    requires { Fits (class_of class.now) }
    ensures { OnOk result (out.new ≡ out.old
        ++ (u4 3405691582 ++ (u2 0 ++ (u2 49
        ++ (u2 (length (class_of class.now).pool + 1) ++ flat_map const_bytes (class_of class.now).pool))))) }
{
    put_u4(out, MAGIC)?;
    put_u2(out, 0)?;
    put_u2(out, VERSION)?;
    put_u2(out, class.pool.len() as u16 + 1)?;
    put_consts(alloc, out, class.pool.as_slice())?;
    Ok(())
}

/// The bytes of a class, unless a code can't be encoded.
pub(crate) fn class_written(alloc: Global, class: &Class) -> Result<Bytes, WriteFault>
    requires { Fits (class_of class.now) }
    ensures { IsWritten (writing (class_of class.now)) result }
{
    let mut out = Bytes::new(alloc);
    put_front(alloc, &mut out, class)?;
    put_u2(&mut out, class.access)?;
    put_u2(&mut out, class.this_class)?;
    put_u2(&mut out, class.super_class)?;
    put_u2(&mut out, 0)?;
    put_members(alloc, &mut out, class.fields.as_slice())?;
    put_members(alloc, &mut out, class.methods.as_slice())?;
    put_attrs(alloc, &mut out, class.attributes.as_slice())?;
    Ok(out)
}
