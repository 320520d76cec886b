//! What a reference to a field or a method names: a member of a built-in class or of a loaded one.

ghost use Rattle.std.specs.Prelude.{◌≡◌, ◌<◌, Some, map, option_map, slice_get, IfOk};
ghost use Rattle.vm_model.specs.View.{args_of};
ghost use Rattle.vm_model.specs.Links.{is_named, built_in, built_members, loaded_member, member_args, field_of_class, method_of_class};
ghost use Rattle.vm_model.specs.Links.{args_by};
ghost use Rattle.vm_model.specs.Program.{Field, Method};
ghost use Rattle.vm_load.specs.Declaring.{named_of, member_of};
ghost use Rattle.vm_load.specs.Outlines.{outlines_of, outline_of, names_of};

use crate::descriptor::class_number;
use crate::outline::Outline;
use crate::pool::{Named, NamedType};
use cls_tree::opcodes::{GETFIELD, INVOKESPECIAL, INVOKESTATIC, INVOKEVIRTUAL, PUTFIELD};
use mg_text::{Memory, Names};
use std::alloc::Global;
use vm_model::{Built, LinkedArgs};

/// Whether an opcode and a reference name this member of a built-in class.
fn is_named(op: u8, reference: Named<'_>, built: Built) -> bool
    ensures { result ≡ is_named op (member_of reference.entry) built }
{
    let member = built.member();
    op == member.op
        && reference.class == member.class
        && reference.name == member.name
        && reference.descriptor == member.descriptor
}

/// The member of a built-in class that an opcode and a reference name.
fn built_in(op: u8, reference: Named<'_>) -> Option<Built>
    ensures { result ≡ built_in op (member_of reference.entry) built_members }
{
    for built in &Built::ALL {
        if is_named(op, reference, *built) {
            return Some(*built);
        }
    }
    None
}

/// The field of a class, by its number.
fn field_args(class: u32, found: Option<u32>) -> Option<LinkedArgs>
    ensures { option_map args_of result ≡ args_by (Field class) found }
{
    match found {
        Some(field) => Some(LinkedArgs::Field { class, field }),
        None => None,
    }
}

/// The method of a class, by its number.
fn method_args(class: u32, found: Option<u32>) -> Option<LinkedArgs>
    ensures { option_map args_of result ≡ args_by (Method class) found }
{
    match found {
        Some(method) => Some(LinkedArgs::Method { class, method }),
        None => None,
    }
}

/// The field that a class's objects have.
fn field_of_class(
    alloc: Global,
    outline: Option<&Outline<'_>>,
    wanted: NamedType<'_>,
) -> Result<Option<u32>, Memory>
    ensures { IfOk result (λ n. n ≡ field_of_class (named_of wanted.entry) (option_map (λ o. outline_of o.now) outline.entry)) }
{
    match outline {
        Some(outline) => outline.own.find(alloc, wanted, false),
        None => Ok(None),
    }
}

/// The method of a class, static or not.
fn method_of_class(
    alloc: Global,
    outline: Option<&Outline<'_>>,
    wanted: NamedType<'_>,
    is_static: bool,
) -> Result<Option<u32>, Memory>
    ensures { IfOk result (λ n. n ≡ method_of_class (named_of wanted.entry) is_static (option_map (λ o. outline_of o.now) outline.entry)) }
{
    match outline {
        Some(outline) => outline.methods.find(alloc, wanted, is_static),
        None => Ok(None),
    }
}

/// The class of this number.
#[tactic(auto, using(crate::proofs::Found::found))]
fn outline_at<'a, 'b>(outlines: &'b [Outline<'a>], class: u32) -> Option<&'b Outline<'a>>
    ensures { option_map (λ o. outline_of o.now) result ≡ slice_get (outlines_of outlines.now) class }
{
    outlines.get(class as usize)
}

/// The member of a loaded class that an opcode names.
fn loaded_member(
    alloc: Global,
    outlines: &[Outline<'_>],
    op: u8,
    wanted: NamedType<'_>,
    class: u32,
) -> Result<Option<LinkedArgs>, Memory>
    ensures { IfOk result (λ a. option_map args_of a ≡ loaded_member (outlines_of outlines.now) op (named_of wanted.entry) (Some class)) }
{
    let outline = outline_at(outlines, class);
    match op {
        GETFIELD | PUTFIELD => {
            let field = field_of_class(alloc, outline, wanted)?;
            Ok(field_args(class, field))
        }
        INVOKEVIRTUAL | INVOKESPECIAL | INVOKESTATIC => {
            let method = method_of_class(alloc, outline, wanted, op == INVOKESTATIC)?;
            Ok(method_args(class, method))
        }
        _ => Ok(None),
    }
}

/// The member that an opcode and a reference name, where there is one.
pub(crate) fn member_args(
    alloc: Global,
    outlines: &[Outline<'_>],
    names: &Names,
    op: u8,
    reference: Named<'_>,
) -> Result<Option<LinkedArgs>, Memory>
    requires { names.now ≡ names_of (outlines_of outlines.now) }
    ensures { IfOk result (λ a. option_map args_of a ≡ member_args (outlines_of outlines.now) op (member_of reference.entry)) }
{
    if let Some(built) = built_in(op, reference) {
        return Ok(Some(LinkedArgs::Built(built)));
    }
    let Some(class) = class_number(outlines, names, reference.class) else {
        return Ok(None);
    };
    let wanted = NamedType {
        name: reference.name,
        descriptor: reference.descriptor,
    };
    loaded_member(alloc, outlines, op, wanted, class)
}
