//! The descriptors of a program's fields and methods (JVMS 4.3).

ghost use Rattle.std.specs.Prelude.{◌≡◌, ◌++◌, IfOk, OnOk, string_bytes, map, take};
ghost use Rattle.std.specs.List.{flat_map};
ghost use Rattle.vm_model.specs.Types.{type_text, result_text};
ghost use Rattle.jv_core.specs.View.{method_of, slot_of};
ghost use Rattle.jv_core.specs.Lookup.{is_main};
ghost use Rattle.gen_rules.specs.Members.{type_in, result_in, field_descriptor, method_descriptor};
ghost use Rattle.gen_members.specs.Slots.{slots_text};

use crate::names::class_name;
use jv_core::{Core, CoreMethod, CoreSlot, CoreType, MethodKind};
use mg_text::Memory;
use std::alloc::Global;

/// Appends the type of a field or a parameter. The constants of an enum are ints.
fn put_type(out: &mut String, core: &Core, ty: CoreType) -> Result<(), Memory>
    ensures { OnOk result (string_bytes out.new ≡ string_bytes out.old ++ type_text (type_in core.now ty)) }
{
    match ty {
        CoreType::Boolean => out.push_str("Z")?,
        CoreType::Text => out.push_str("Ljava/lang/String;")?,
        CoreType::Object(class) => {
            out.push_str("L")?;
            out.push_str(class_name(core, class))?;
            out.push_str(";")?;
        }
        CoreType::Void | CoreType::Int | CoreType::Enum(_) => out.push_str("I")?,
    }
    Ok(())
}

/// Appends the type of a result.
fn put_result(out: &mut String, core: &Core, ty: CoreType) -> Result<(), Memory>
    ensures { OnOk result (string_bytes out.new ≡ string_bytes out.old ++ result_text (result_in core.now ty)) }
{
    if ty == CoreType::Void {
        out.push_str("V")?;
        return Ok(());
    }
    put_type(out, core, ty)
}

/// Appends the types of parameters.
fn put_params(out: &mut String, core: &Core, params: &[CoreSlot]) -> Result<(), Memory>
    ensures { OnOk result (string_bytes out.new ≡ string_bytes out.old ++ slots_text core.now (map slot_of params.now)) }
{
    for param in params {
        put_type(out, core, param.ty)?;
    }
    Ok(())
}

/// The descriptor of a field of this type.
pub(crate) fn field_descriptor(alloc: Global, core: &Core, ty: CoreType) -> Result<String, Memory>
    ensures { IfOk result (λ s. string_bytes s ≡ field_descriptor core.now ty) }
{
    let mut out = String::new(alloc);
    put_type(&mut out, core, ty)?;
    Ok(out)
}

/// The parameters of a method.
fn params(method: &CoreMethod) -> &[CoreSlot]
    ensures { map slot_of result.now ≡ take method.now.params (map slot_of method.now.slots.items) }
{
    let slots = method.slots.as_slice();
    let count = method.params as usize;
    if count < slots.len() {
        &slots[..count]
    } else {
        slots
    }
}

/// Whether a method is `main` with its array of texts.
fn is_main(kind: MethodKind) -> bool
    ensures { result ≡ is_main kind }
{
    match kind {
        MethodKind::Main => true,
        MethodKind::Static | MethodKind::Helper | MethodKind::Protocol => false,
    }
}

/// The descriptor of a method. That of `main` has its array of texts.
pub fn method_descriptor(alloc: Global, core: &Core, method: &CoreMethod) -> Result<String, Memory>
    ensures { IfOk result (λ s. string_bytes s ≡ method_descriptor core.now (method_of method.now)) }
{
    if is_main(method.kind) {
        return Ok(String::from_str(alloc, "([Ljava/lang/String;)V")?);
    }
    let mut out = String::from_str(alloc, "(")?;
    put_params(&mut out, core, params(method))?;
    out.push_str(")")?;
    put_result(&mut out, core, method.result)?;
    Ok(out)
}
