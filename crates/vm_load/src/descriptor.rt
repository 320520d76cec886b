//! Which descriptors link: those of a known form, all of whose classes are there.

ghost use Rattle.std.specs.Prelude.{◌≡◌, option_map, IfOk};
ghost use Rattle.std.specs.Str.{bytes_eq};
ghost use Rattle.vm_model.specs.Types.{is_main_alone, types_of_signature};
ghost use Rattle.vm_model.specs.Descriptors.{types_view, signature_view};
ghost use Rattle.vm_model.specs.Links.{UnknownClass, loaded, is_known, unknown_in, method_types, field_flaw, method_flaw, super_flaw};
ghost use Rattle.vm_load.specs.Faults.{Tells};
ghost use Rattle.vm_load.specs.Outlines.{class_named};
ghost use Rattle.vm_load.specs.Declaring.{declared_of};
ghost use Rattle.vm_load.specs.Outlines.{outlines_of, names_of};

use crate::declared::Declared;
use crate::fault::{LoadFault, bad_descriptor, unknown_class};
use crate::outline::Outline;
use mg_text::{Memory, Names};
use std::alloc::Global;
use vm_model::{FieldType, OBJECT_CLASS, Signature, is_built_in, read_signature, read_type};

/// The number of the loaded class of this name.
pub(crate) fn class_number(outlines: &[Outline<'_>], names: &Names, name: &str) -> Option<u32>
    requires { names.now ≡ names_of (outlines_of outlines.now) }
    ensures { result ≡ loaded (outlines_of outlines.now) name.now }
{
    match names.find(name) {
        Some(number) => Some(number.0),
        None => None,
    }
}

/// Whether this is the name of a loaded or built-in class.
pub(crate) fn is_known(outlines: &[Outline<'_>], names: &Names, name: &str) -> bool
    requires { names.now ≡ names_of (outlines_of outlines.now) }
    ensures { result ≡ is_known (outlines_of outlines.now) name.now }
{
    if is_built_in(name) {
        return true;
    }
    match class_number(outlines, names, name) {
        Some(_number) => true,
        None => false,
    }
}

/// The name of the class that a type names.
fn class_of_type<'a>(ty: FieldType<'a>) -> Option<&'a str>
    ensures { option_map (λ n. n.now) result ≡ class_named ty.entry }
{
    match ty {
        FieldType::Named(name) => Some(name),
        _ => None,
    }
}

/// The first name of a class in these types that is none.
fn unknown_in<'a>(
    outlines: &[Outline<'_>],
    names: &Names,
    types: &[FieldType<'a>],
) -> Option<&'a str>
    requires { names.now ≡ names_of (outlines_of outlines.now) }
    ensures { option_map (λ n. n.now) result ≡ unknown_in (outlines_of outlines.now) (types_view types.now) }
{
    for ty in types {
        let Some(name) = class_of_type(*ty) else {
            continue;
        };
        if !is_known(outlines, names, name) {
            return Some(name);
        }
    }
    None
}

/// Refuses types that name a class that isn't there.
#[tactic(auto, using(crate::proofs::Told::tells))]
pub(crate) fn judge_types(
    alloc: Global,
    outlines: &[Outline<'_>],
    names: &Names,
    types: &[FieldType<'_>],
) -> Result<(), LoadFault>
    requires { names.now ≡ names_of (outlines_of outlines.now) }
    ensures { Tells result (option_map UnknownClass (unknown_in (outlines_of outlines.now) (types_view types.now))) }
{
    match unknown_in(outlines, names, types) {
        Some(name) => Err(unknown_class(alloc, name)),
        None => Ok(()),
    }
}

/// Whether the array of texts, where this descriptor has it, stands in that of a `main`.
fn is_main_alone(name: &str, descriptor: &str) -> bool
    ensures { result ≡ is_main_alone name.now descriptor.now }
{
    descriptor != "([Ljava/lang/String;)V" || name == "main"
}

/// The types of a signature, the result's last.
fn types_of<'a>(signature: Signature<'a>) -> Result<Vec<FieldType<'a>>, Memory>
    ensures { IfOk result (λ v. types_view v.items ≡ types_of_signature (signature_view signature.entry)) }
{
    let Signature {
        mut params,
        result: answer,
    } = signature;
    match answer {
        Some(ty) => {
            params.push(ty)?;
            Ok(params)
        }
        None => Ok(params),
    }
}

/// The types in the descriptor of a method of this name.
pub(crate) fn method_types<'a>(
    alloc: Global,
    name: &str,
    descriptor: &'a str,
) -> Result<Option<Vec<FieldType<'a>>>, Memory>
    ensures { IfOk result (λ r. option_map (λ v. types_view v.items) r ≡ method_types name.now descriptor.now) }
{
    if !is_main_alone(name, descriptor) {
        return Ok(None);
    }
    let Some(signature) = read_signature(alloc, descriptor)? else {
        return Ok(None);
    };
    let types = types_of(signature)?;
    Ok(Some(types))
}

/// Judges the descriptor of a declared field.
#[tactic(auto, using(crate::proofs::Told::tells))]
pub(crate) fn judge_field(
    alloc: Global,
    outlines: &[Outline<'_>],
    names: &Names,
    field: Declared<'_>,
) -> Result<(), LoadFault>
    requires { names.now ≡ names_of (outlines_of outlines.now) }
    ensures { Tells result (field_flaw (outlines_of outlines.now) (declared_of field.entry)) }
{
    let Some(ty) = read_type(alloc, field.descriptor)? else {
        return Err(bad_descriptor(alloc, field.descriptor));
    };
    judge_types(alloc, outlines, names, &[ty])
}

/// Judges the descriptor of a declared method.
#[tactic(auto, using(crate::proofs::Told::tells))]
pub(crate) fn judge_method(
    alloc: Global,
    outlines: &[Outline<'_>],
    names: &Names,
    method: Declared<'_>,
) -> Result<(), LoadFault>
    requires { names.now ≡ names_of (outlines_of outlines.now) }
    ensures { Tells result (method_flaw (outlines_of outlines.now) (declared_of method.entry)) }
{
    let Some(types) = method_types(alloc, method.name, method.descriptor)? else {
        return Err(bad_descriptor(alloc, method.descriptor));
    };
    judge_types(alloc, outlines, names, types.as_slice())
}

/// Judges the name of a super class.
#[tactic(auto, using(crate::proofs::Told::tells))]
pub(crate) fn judge_super(alloc: Global, name: &str) -> Result<(), LoadFault>
    ensures { Tells result (super_flaw name.now) }
{
    if name == OBJECT_CLASS {
        return Ok(());
    }
    Err(unknown_class(alloc, name))
}
