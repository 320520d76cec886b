//! The types of descriptors as linked programs keep them.

ghost use Rattle.std.specs.Prelude.{◌≡◌, map, option_map, IfOk};
ghost use Rattle.cls_tree.specs.View.{code_of};
ghost use Rattle.vm_model.specs.View as model;
ghost use Rattle.vm_model.specs.Types.{signature_of};
ghost use Rattle.vm_model.specs.Descriptors.{type_view, types_view};
ghost use Rattle.vm_model.specs.Kept.{kept_type, kept_params, kept_result};
ghost use Rattle.vm_model.specs.Links.{field_made};
ghost use Rattle.vm_load.specs.Declaring.{declared_of};

use crate::declared::Declared;
use cls_tree::Code;
use mg_text::{List, Memory, Text};
use std::alloc::Global;
use vm_model::{
    FieldType, LinkedField, LinkedInstr, LinkedMethod, LinkedType, Signature, read_signature,
    read_type,
};

/// These types, with their names copied.
fn kept_types(alloc: Global, types: &[FieldType<'_>]) -> Result<List<LinkedType>, Memory>
    ensures { IfOk result (λ l. l.items ≡ map kept_type (types_view types.now)) }
{
    let mut kept = List::new(alloc);
    for field_type in types {
        let one = LinkedType::of(alloc, *field_type)?;
        kept.push(one)?;
    }
    Ok(kept)
}

/// A type, where there is one, with its name copied.
fn kept_where(
    alloc: Global,
    field_type: Option<FieldType<'_>>,
) -> Result<Option<LinkedType>, Memory>
    ensures { IfOk result (λ t. t ≡ option_map kept_type (option_map type_view field_type.entry)) }
{
    match field_type {
        Some(field_type) => {
            let kept = LinkedType::of(alloc, field_type)?;
            Ok(Some(kept))
        }
        None => Ok(None),
    }
}

/// The types of the parameters and of the result of a method of this descriptor.
fn kept_signature(
    alloc: Global,
    descriptor: &str,
) -> Result<(List<LinkedType>, Option<LinkedType>), Memory>
    ensures params { IfOk result (λ r. r.0.items ≡ kept_params (signature_of descriptor.now)) }
    ensures answer { IfOk result (λ r. r.1 ≡ kept_result (signature_of descriptor.now)) }
{
    match read_signature(alloc, descriptor)? {
        Some(signature) => {
            let Signature {
                params,
                result: answer,
            } = signature;
            let params = kept_types(alloc, params.as_slice())?;
            let answer = kept_where(alloc, answer)?;
            Ok((params, answer))
        }
        None => Ok((List::new(alloc), None)),
    }
}

/// A field with the type that its descriptor names.
pub(crate) fn linked_field(alloc: Global, field: &Declared<'_>) -> Result<LinkedField, Memory>
    ensures { IfOk result (λ f. model.field_of f ≡ field_made (declared_of field.now)) }
{
    let field_type = read_type(alloc, field.descriptor)?;
    let name = Text::of(alloc, field.name)?;
    let descriptor = Text::of(alloc, field.descriptor)?;
    let field_type = kept_where(alloc, field_type)?;
    Ok(LinkedField {
        name,
        descriptor,
        field_type,
    })
}

/// A method with the types that its descriptor names, and with this code.
pub(crate) fn linked_method(
    alloc: Global,
    declared: Declared<'_>,
    code: &Code,
    instrs: List<LinkedInstr>,
) -> Result<LinkedMethod, Memory>
    ensures { IfOk result (λ m. model.method_of m ≡ record {
      name = (declared_of declared.entry).name;
      descriptor = (declared_of declared.entry).descriptor;
      is_static = (declared_of declared.entry).is_static;
      max_stack = (code_of code.now).max_stack;
      max_locals = (code_of code.now).max_locals;
      code = map model.instr_of instrs.items;
    }) }
{
    let name = Text::of(alloc, declared.name)?;
    let descriptor = Text::of(alloc, declared.descriptor)?;
    let (params, answer) = kept_signature(alloc, declared.descriptor)?;
    Ok(LinkedMethod {
        name,
        descriptor,
        params,
        result: answer,
        is_static: declared.is_static,
        max_stack: code.max_stack,
        max_locals: code.max_locals,
        code: instrs,
    })
}
