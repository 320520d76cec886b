//! Jumps to labels become jumps to the instructions at which the labels are.

ghost use Rattle.std.specs.Prelude.{◌≡◌, IfOk, map};
ghost use Rattle.jv_core.specs.Tree.{Program};
ghost use Rattle.gen_expressions.specs.View.{instrs_of, operand_of};
ghost use Rattle.gen_expressions.specs.Aimed.{aimed, aimed_operand, place_of};

use gen_expressions::{Operand, Symbolic};
use mg_text::{List, Memory};
use std::alloc::Global;

// The place of a label.
fn place_of(labels: &[u32], label: u32) -> u32
    ensures { result ≡ place_of labels.now label }
{
    match labels.get(label as usize) {
        Some(place) => *place,
        None => 0,
    }
}

// The places of labels.
#[tactic(auto, using(crate::proofs::Aiming::aims))]
fn places_of(alloc: Global, labels: &[u32], of: &[u32]) -> Result<List<u32>, Memory>
    ensures { IfOk result (λ l. l.items ≡ map (place_of labels.now) of.now) }
{
    let mut places = List::new(alloc);
    for label in of {
        places.push(place_of(labels, *label))?;
    }
    Ok(places)
}

// What an instruction works with, where the labels have these places.
fn aim_operand<'a>(
    alloc: Global,
    labels: &[u32],
    operand: &Operand<'a>,
) -> Result<Operand<'a>, Memory>
    ensures { (p : Program) → IfOk result (λ o. operand_of p o ≡ aimed_operand labels.now (operand_of p operand.now)) }
{
    match operand {
        Operand::Jump(label) => Ok(Operand::Jump(place_of(labels, *label))),
        Operand::Table { default, targets } => {
            let targets = places_of(alloc, labels, targets.as_slice())?;
            Ok(Operand::Table {
                default: place_of(labels, *default),
                targets,
            })
        }
        Operand::Nothing => Ok(Operand::Nothing),
        Operand::Number(number) => Ok(Operand::Number(*number)),
        Operand::Int(number) => Ok(Operand::Int(*number)),
        Operand::Text(text) => Ok(Operand::Text(*text)),
        Operand::Local(local) => Ok(Operand::Local(*local)),
        Operand::Class(class) => Ok(Operand::Class(*class)),
        Operand::Field { class, field } => Ok(Operand::Field {
            class: *class,
            field: *field,
        }),
        Operand::Method(method) => Ok(Operand::Method(*method)),
        Operand::Constructor(class) => Ok(Operand::Constructor(*class)),
        Operand::BuiltIn(member) => Ok(Operand::BuiltIn(*member)),
    }
}

/// The instructions, where the labels have these places.
#[tactic(auto, using(crate::proofs::Aiming::aims))]
pub(crate) fn aim<'a>(
    alloc: Global,
    labels: &[u32],
    instrs: &[Symbolic<'a>],
) -> Result<List<Symbolic<'a>>, Memory>
    ensures { (p : Program) → IfOk result (λ l. instrs_of p l.items ≡ map (aimed labels.now) (instrs_of p instrs.now)) }
{
    let mut out = List::new(alloc);
    for instr in instrs {
        let operand = aim_operand(alloc, labels, &instr.operand)?;
        out.push(Symbolic {
            op: instr.op,
            operand,
        })?;
    }
    Ok(out)
}
