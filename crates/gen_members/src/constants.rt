//! The number of the constant with which an instruction works.

ghost use Rattle.std.specs.Prelude.{◌≡◌, IfOk, map, slice_get, option_map, option_and_then};
ghost use Rattle.jv_core.specs.View.{field_of};
ghost use Rattle.gen_rules.specs.Members.{field_reference, method_reference};
ghost use Rattle.gen_expressions.specs.View.{operand_of, built_in_of};
ghost use Rattle.gen_pool.specs.Made.{IsMade, IsFrontOf};
ghost use Rattle.gen_members.specs.Constants.{constant_of, field_of_reference, method_of_reference};

use crate::descriptors::{field_descriptor, method_descriptor};
use crate::names::class_name;
use cls_tree::opcodes::GETSTATIC;
use gen_expressions::Operand;
use gen_pool::{Pool, class_const, field_const, int_const, method_const, text_const};
use jv_core::{Core, CoreField, name_text};
use mg_text::Memory;
use std::alloc::Global;
use vm_model::Built;

/// A field of a class, where there is one.
#[tactic(auto, using(crate::proofs::Found::found))]
fn field_at(core: &Core, class: u32, field: u32) -> Option<&CoreField>
    ensures { option_map (λ f. field_of f.now) result
        ≡ option_and_then (λ k. slice_get k.fields field) (slice_get core.now.classes class) }
{
    let class = core.classes().get(class as usize)?;
    class.fields.as_slice().get(field as usize)
}

/// The number of a field of the program.
#[tactic(auto, using(gen_pool::proofs::Fronts::fronts))]
fn field_constant(
    alloc: Global,
    core: &Core,
    class: u32,
    field: u32,
    pool: &mut Pool,
) -> Result<usize, Memory>
    ensures made { IfOk result (λ n. IsMade n pool.new (field_of_reference (field_reference core.now class field) pool.old)) }
    ensures kept { IsFrontOf pool.old pool.new }
{
    let class_name = class_name(core, class);
    let Some(field) = field_at(core, class, field) else {
        return field_const(pool, class_name, "", "");
    };
    let descriptor = field_descriptor(alloc, core, field.ty)?;
    field_const(
        pool,
        class_name,
        name_text(core, field.name),
        descriptor.as_str(),
    )
}

/// The number of a method of the program.
#[tactic(auto, using(crate::proofs::Found::found, gen_pool::proofs::Fronts::fronts))]
fn method_constant(
    alloc: Global,
    core: &Core,
    number: u32,
    pool: &mut Pool,
) -> Result<usize, Memory>
    ensures made { IfOk result (λ n. IsMade n pool.new (method_of_reference (method_reference core.now number) pool.old)) }
    ensures kept { IsFrontOf pool.old pool.new }
{
    let Some(method) = core.methods().get(number as usize) else {
        return method_const(pool, "", "", "");
    };
    let descriptor = method_descriptor(alloc, core, method)?;
    let class_name = class_name(core, method.class);
    method_const(
        pool,
        class_name,
        name_text(core, method.name),
        descriptor.as_str(),
    )
}

/// The number of a member of a built-in class.
fn built_in_constant(member: Built, pool: &mut Pool) -> Result<usize, Memory>
    ensures made { IfOk result (λ n. IsMade n pool.new (constant_of (built_in_of member) pool.old)) }
    ensures kept { IsFrontOf pool.old pool.new }
{
    let named = member.member();
    if named.op == GETSTATIC {
        return field_const(pool, named.class, named.name, named.descriptor);
    }
    method_const(pool, named.class, named.name, named.descriptor)
}

/// The number of the constant of an instruction, which is appended to the pool where it is new; 0
/// where the instruction has none.
#[tactic(auto, using(gen_pool::proofs::Fronts::fronts))]
pub(crate) fn constant(
    alloc: Global,
    core: &Core,
    operand: &Operand<'_>,
    pool: &mut Pool,
) -> Result<usize, Memory>
    ensures made { IfOk result (λ n. IsMade n pool.new (constant_of (operand_of core.now operand.now) pool.old)) }
    ensures kept { IsFrontOf pool.old pool.new }
{
    match operand {
        Operand::Int(number) => int_const(pool, *number),
        Operand::Text(text) => text_const(pool, text.as_str()),
        Operand::Class(class) => class_const(pool, class_name(core, *class)),
        Operand::Field { class, field } => field_constant(alloc, core, *class, *field, pool),
        Operand::Method(method) => method_constant(alloc, core, *method, pool),
        Operand::Constructor(class) => method_const(
            pool,
            class_name(core, *class),
            "<init>",
            "()V",
        ),
        Operand::BuiltIn(member) => built_in_constant(*member, pool),
        Operand::Nothing | Operand::Number(_) | Operand::Local(_) | Operand::Jump(_) => Ok(0),
        Operand::Table { .. } => Ok(0),
    }
}
