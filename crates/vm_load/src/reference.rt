//! What the number of a constant means behind an opcode.

ghost use Rattle.std.specs.Prelude.{◌≡◌, option_map, IfOk};
ghost use Rattle.vm_model.specs.Descriptors.{types_view};
ghost use Rattle.vm_model.specs.View.{args_of};
ghost use Rattle.vm_model.specs.Links.{field_types, judged_args, judged_member, judged_reference, judged_field_reference};
ghost use Rattle.vm_model.specs.Links.{judged_method_reference, judged_new, judged_pool, member_args, pushed_args, or_empty, loaded};
ghost use Rattle.cls_tree.specs.Pool.{field_at, method_at, pushed_at, class_at};
ghost use Rattle.vm_load.specs.Faults.{Judges, pushed_text};
ghost use Rattle.vm_load.specs.Declaring.{member_of};
ghost use Rattle.vm_load.specs.Outlines.{outlines_of, names_of};

use crate::descriptor::{class_number, is_known, judge_types, method_types};
use crate::fault::{LoadFault, unknown_class, unknown_member};
use crate::member::member_args;
use crate::outline::Outline;
use crate::pool::{Named, class_at, constant, field_at, method_at, or_empty, text_at};
use cls_tree::Const;
use cls_tree::opcodes::{
    GETFIELD, GETSTATIC, INVOKESPECIAL, INVOKESTATIC, INVOKEVIRTUAL, NEW, PUTFIELD,
};
use mg_text::{Memory, Names, Text};
use std::alloc::Global;
use std::rc::Rc;
use vm_model::{FieldType, LinkedArgs, read_type};

/// The type in the descriptor of a field.
fn field_types<'a>(alloc: Global, descriptor: &'a str) -> Result<Option<Vec<FieldType<'a>>>, Memory>
    ensures { IfOk result (λ r. option_map (λ v. types_view v.items) r ≡ field_types descriptor.now) }
{
    let Some(ty) = read_type(alloc, descriptor)? else {
        return Ok(None);
    };
    let mut types = Vec::new(alloc);
    types.push(ty)?;
    Ok(Some(types))
}

/// The member of a class that is there, or that there is none.
#[tactic(auto, using(crate::proofs::Judged::judges))]
fn found_member(
    alloc: Global,
    outlines: &[Outline<'_>],
    names: &Names,
    op: u8,
    reference: Named<'_>,
) -> Result<LinkedArgs, LoadFault>
    requires { names.now ≡ names_of (outlines_of outlines.now) }
    ensures { Judges args_of result
        (judged_args (member_of reference.entry).member.name (member_args (outlines_of outlines.now) op (member_of reference.entry))) }
{
    match member_args(alloc, outlines, names, op, reference)? {
        Some(args) => Ok(args),
        None => Err(unknown_member(alloc, reference.name)),
    }
}

/// The member that a reference of this opcode names, whose descriptor has these types. One of no types
/// is judged where a member has it.
#[tactic(auto, using(crate::proofs::Judged::judges))]
fn judge_reference(
    alloc: Global,
    outlines: &[Outline<'_>],
    names: &Names,
    op: u8,
    reference: Named<'_>,
    types: Option<Vec<FieldType<'_>>>,
) -> Result<LinkedArgs, LoadFault>
    requires { names.now ≡ names_of (outlines_of outlines.now) }
    ensures { Judges args_of result
        (judged_reference (outlines_of outlines.now) op (member_of reference.entry) (option_map (λ v. types_view v.items) types.entry)) }
{
    if !is_known(outlines, names, reference.class) {
        return Err(unknown_class(alloc, reference.class));
    }
    let Some(types) = types else {
        return found_member(alloc, outlines, names, op, reference);
    };
    match judge_types(alloc, outlines, names, types.as_slice()) {
        Ok(()) => found_member(alloc, outlines, names, op, reference),
        Err(fault) => Err(fault),
    }
}

/// The field that an opcode names.
#[tactic(auto, using(crate::proofs::Judged::judges))]
fn judge_field_reference(
    alloc: Global,
    outlines: &[Outline<'_>],
    names: &Names,
    op: u8,
    reference: Option<Named<'_>>,
) -> Result<LinkedArgs, LoadFault>
    requires { names.now ≡ names_of (outlines_of outlines.now) }
    ensures { Judges args_of result (judged_field_reference (outlines_of outlines.now) op (option_map member_of reference.entry)) }
{
    let Some(reference) = reference else {
        return Err(unknown_member(alloc, ""));
    };
    let types = field_types(alloc, reference.descriptor)?;
    judge_reference(alloc, outlines, names, op, reference, types)
}

/// The method that an opcode names.
#[tactic(auto, using(crate::proofs::Judged::judges))]
fn judge_method_reference(
    alloc: Global,
    outlines: &[Outline<'_>],
    names: &Names,
    op: u8,
    reference: Option<Named<'_>>,
) -> Result<LinkedArgs, LoadFault>
    requires { names.now ≡ names_of (outlines_of outlines.now) }
    ensures { Judges args_of result (judged_method_reference (outlines_of outlines.now) op (option_map member_of reference.entry)) }
{
    let Some(reference) = reference else {
        return Err(unknown_member(alloc, ""));
    };
    let types = method_types(alloc, reference.name, reference.descriptor)?;
    judge_reference(alloc, outlines, names, op, reference, types)
}

/// The class that `new` names.
#[tactic(auto, using(crate::proofs::Judged::judges))]
fn judge_new(
    alloc: Global,
    outlines: &[Outline<'_>],
    names: &Names,
    name: &str,
) -> Result<LinkedArgs, LoadFault>
    requires { names.now ≡ names_of (outlines_of outlines.now) }
    ensures { Judges args_of result (judged_new name.now (loaded (outlines_of outlines.now) name.now)) }
{
    match class_number(outlines, names, name) {
        Some(class) => Ok(LinkedArgs::Class(class)),
        None => Err(unknown_class(alloc, name)),
    }
}

/// The text that is pushed.
fn pushed_text(text: Option<&str>, alloc: Global) -> Result<LinkedArgs, Memory>
    ensures { IfOk result (λ a. args_of a ≡ pushed_text (option_map (λ t. t.now) text.entry)) }
{
    match text {
        Some(text) => {
            let text = Text::of(alloc, text)?;
            let text = Rc::new(alloc, text)?;
            Ok(LinkedArgs::Text(text))
        }
        None => Ok(LinkedArgs::None),
    }
}

/// The int or the text that is pushed.
fn pushed(alloc: Global, pool: &[Const], number: u16) -> Result<LinkedArgs, Memory>
    ensures { IfOk result (λ a. args_of a ≡ pushed_args (pushed_at pool.now number)) }
{
    match constant(pool, number) {
        Some(Const::Integer(value)) => Ok(LinkedArgs::Int(*value)),
        Some(Const::Text(text)) => pushed_text(text_at(pool, *text), alloc),
        _ => Ok(LinkedArgs::None),
    }
}

/// What the number of a constant means behind an opcode.
#[tactic(auto, using(crate::proofs::Judged::judges))]
pub(crate) fn judge_pool(
    alloc: Global,
    outlines: &[Outline<'_>],
    names: &Names,
    pool: &[Const],
    op: u8,
    number: u16,
) -> Result<LinkedArgs, LoadFault>
    requires { names.now ≡ names_of (outlines_of outlines.now) }
    ensures { Judges args_of result (judged_pool (outlines_of outlines.now) pool.now op number) }
{
    match op {
        NEW => judge_new(alloc, outlines, names, or_empty(class_at(pool, number))),
        GETSTATIC | GETFIELD | PUTFIELD => {
            judge_field_reference(alloc, outlines, names, op, field_at(pool, number))
        }
        INVOKEVIRTUAL | INVOKESPECIAL | INVOKESTATIC => {
            judge_method_reference(alloc, outlines, names, op, method_at(pool, number))
        }
        _ => {
            let args = pushed(alloc, pool, number)?;
            Ok(args)
        }
    }
}
