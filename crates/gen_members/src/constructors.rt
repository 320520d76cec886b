//! The instructions of a constructor.

ghost use Rattle.std.specs.Prelude.{◌≡◌, ◌++◌, IfOk, OnOk, map};
ghost use Rattle.jv_core.specs.Tree.{Program};
ghost use Rattle.jv_core.specs.View.{class_of, field_of};
ghost use Rattle.gen_rules.specs.Classes.{initialised, all_initialised, constructor_code};
ghost use Rattle.gen_expressions.specs.View.{instrs_of};

use crate::pushed::{plain, push_constant};
use cls_tree::opcodes::{ALOAD_0, INVOKESPECIAL, PUTFIELD, RETURN};
use gen_expressions::{Operand, Symbolic};
use jv_core::{CoreClass, CoreField};
use mg_text::{List, Memory};
use std::alloc::Global;
use vm_model::Built;

/// Sets a field of a class to its written initial value, where it has one.
fn put_field<'a>(
    instrs: &mut List<Symbolic<'a>>,
    class: u32,
    number: u32,
    field: &'a CoreField,
) -> Result<(), Memory>
    ensures { OnOk result ((p : Program) → instrs_of p instrs.new.items
        ≡ instrs_of p instrs.old.items ++ initialised p class number (field_of field.now).value) }
{
    let Some(value) = &field.value else {
        return Ok(());
    };
    let constant = push_constant(value)?;
    instrs.push(plain(ALOAD_0))?;
    instrs.push(constant)?;
    instrs.push(Symbolic {
        op: PUTFIELD,
        operand: Operand::Field {
            class,
            field: number,
        },
    })?;
    Ok(())
}

/// Sets the fields of a class to their written initial values.
fn put_fields<'a>(
    instrs: &mut List<Symbolic<'a>>,
    class: u32,
    fields: &'a List<CoreField>,
) -> Result<(), Memory>
    ensures { OnOk result ((p : Program) → instrs_of p instrs.new.items
        ≡ instrs_of p instrs.old.items ++ all_initialised p class 0 (map field_of fields.now.items)) }
{
    let fields = fields.as_slice();
    for number in 0..fields.len() {
        put_field(instrs, class, number as u32, &fields[number])?;
    }
    Ok(())
}

/// The code of the constructor of a class, which has this number in its program.
pub fn constructor_code<'a>(
    alloc: Global,
    number: u32,
    class: &'a CoreClass,
) -> Result<List<Symbolic<'a>>, Memory>
    ensures { IfOk result (λ is. (p : Program) → instrs_of p is.items ≡ constructor_code p number (class_of class.now)) }
{
    let mut instrs = List::new(alloc);
    instrs.push(plain(ALOAD_0))?;
    instrs.push(Symbolic {
        op: INVOKESPECIAL,
        operand: Operand::BuiltIn(Built::Init),
    })?;
    put_fields(&mut instrs, number, &class.fields)?;
    instrs.push(plain(RETURN))?;
    Ok(instrs)
}
