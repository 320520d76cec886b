//! The instructions that push constants.

ghost use Rattle.std.specs.Prelude.{◌≡◌, IfOk, pos};
ghost use Rattle.jv_core.specs.Tree.{Program};
ghost use Rattle.jv_core.specs.View.{expr_of};
ghost use Rattle.gen_rules.specs.Symbolic.{plain, push, push_truth};
ghost use Rattle.gen_rules.specs.Classes.{push_constant};
ghost use Rattle.gen_expressions.specs.View.{instr_of};

use cls_tree::opcodes::{ACONST_NULL, BIPUSH, ICONST_0, LDC, SIPUSH};
use gen_expressions::{Operand, Symbolic};
use jv_core::{CoreExpr, CoreExprKind};
use mg_text::Memory;

/// An instruction without an operand.
pub(crate) fn plain<'a>(op: u8) -> Symbolic<'a>
    ensures { (p : Program) → instr_of p result ≡ plain op }
{
    Symbolic {
        op,
        operand: Operand::Nothing,
    }
}

/// Pushes an int.
fn push<'a>(number: i32) -> Symbolic<'a>
    ensures { (p : Program) → instr_of p result ≡ push number }
{
    if number >= -1 && number <= 5 {
        return plain((i32::from(ICONST_0) + number) as u8);
    }
    if number >= -128 && number <= 127 {
        return Symbolic {
            op: BIPUSH,
            operand: Operand::Number(number as i16),
        };
    }
    if number >= -32768 && number <= 32767 {
        return Symbolic {
            op: SIPUSH,
            operand: Operand::Number(number as i16),
        };
    }
    Symbolic {
        op: LDC,
        operand: Operand::Int(number),
    }
}

/// Pushes a truth value.
fn push_truth<'a>(holds: bool) -> Symbolic<'a>
    ensures { (p : Program) → instr_of p result ≡ push_truth holds }
{
    if holds {
        return push(1);
    }
    push(0)
}

/// Pushes the position of an enum's constant.
/// # Errors
/// A position past 2^31, which no program has.
fn push_position<'a>(position: u32) -> Result<Symbolic<'a>, Memory>
    ensures { IfOk result (λ i. (p : Program) → instr_of p i ≡ push (pos position)) }
{
    if position > 0x7fff_ffff {
        return Err(Memory);
    }
    Ok(push(position as i32))
}

/// Pushes the constant with which a field begins.
/// # Errors
/// A position of an enum's constant past 2^31, which no program has.
#[tactic(auto, using(jv_core::proofs::ViewLaws::views))]
pub(crate) fn push_constant<'a>(value: &'a CoreExpr) -> Result<Symbolic<'a>, Memory>
    ensures { IfOk result (λ i. (p : Program) → instr_of p i ≡ push_constant (expr_of value.now)) }
{
    match &value.kind {
        CoreExprKind::Int(number) => Ok(push(*number)),
        CoreExprKind::Truth(holds) => Ok(push_truth(*holds)),
        CoreExprKind::Text(text) => Ok(Symbolic {
            op: LDC,
            operand: Operand::Text(text),
        }),
        CoreExprKind::Constant { of: _, position } => push_position(*position),
        CoreExprKind::Null | CoreExprKind::Var(_) | CoreExprKind::Neg(_) => Ok(plain(ACONST_NULL)),
        CoreExprKind::Not(_) | CoreExprKind::Binary(_, _, _) => Ok(plain(ACONST_NULL)),
        CoreExprKind::Protocol { .. } | CoreExprKind::Helper { .. } => Ok(plain(ACONST_NULL)),
        CoreExprKind::Static { .. } | CoreExprKind::Equals(_, _) => Ok(plain(ACONST_NULL)),
        CoreExprKind::Concat(_, _) | CoreExprKind::Session { .. } => Ok(plain(ACONST_NULL)),
        CoreExprKind::New(_) => Ok(plain(ACONST_NULL)),
    }
}
