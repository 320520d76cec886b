//! Conditions: jumps to a label where an expression holds, or where it doesn't.
//! Where it doesn't jump the code goes on behind.

ghost use Rattle.std.specs.Prelude.{◌≡◌, OnOk, not};
ghost use Rattle.jv_core.specs.View.{expr_of};
ghost use Rattle.gen_rules.specs.Templates.{compared};
ghost use Rattle.gen_expressions.specs.Held.{draft_in, method_in};
ghost use Rattle.gen_expressions.specs.Drafting.{emit, value, tested_binary, forms, jump, literal_jump, test, null_op};
ghost use Rattle.gen_expressions.specs.Drafting.{compare_op, with_null, comparison, past};

use crate::coder::{Coder, Draft};
use crate::locals::Locals;
use crate::typed::is_null;
use cls_tree::opcodes::{
    GOTO, IF_ICMPEQ, IF_ICMPGE, IF_ICMPGT, IF_ICMPLE, IF_ICMPLT, IF_ICMPNE, IFEQ, IFNE, IFNONNULL,
    IFNULL,
};
use jv_core::{CoreExpr, CoreExprKind, CoreOp};
use mg_text::Memory;

// The opcode of the jump where a variable is compared with `null`.
fn null_op(op: CoreOp, holds: bool) -> u8
    ensures { result ≡ null_op op holds }
{
    match op {
        CoreOp::Ne => {
            if holds {
                return IFNONNULL;
            }
            IFNULL
        }
        CoreOp::Or | CoreOp::And | CoreOp::Eq | CoreOp::Lt | CoreOp::Le | CoreOp::Gt => {
            if holds {
                return IFNULL;
            }
            IFNONNULL
        }
        CoreOp::Ge | CoreOp::Add | CoreOp::Sub | CoreOp::Mul | CoreOp::Div | CoreOp::Rem => {
            if holds {
                return IFNULL;
            }
            IFNONNULL
        }
    }
}

// The opcode of the jump where two ints compare so, or where they don't.
fn compare_op(op: CoreOp, holds: bool) -> u8
    ensures { result ≡ compare_op op holds }
{
    if holds {
        return match op {
            CoreOp::Eq => IF_ICMPEQ,
            CoreOp::Ne => IF_ICMPNE,
            CoreOp::Lt => IF_ICMPLT,
            CoreOp::Ge => IF_ICMPGE,
            CoreOp::Gt => IF_ICMPGT,
            CoreOp::Le => IF_ICMPLE,
            CoreOp::Or | CoreOp::And | CoreOp::Add | CoreOp::Sub => IF_ICMPEQ,
            CoreOp::Mul | CoreOp::Div | CoreOp::Rem => IF_ICMPEQ,
        };
    }
    match op {
        CoreOp::Eq => IF_ICMPNE,
        CoreOp::Ne => IF_ICMPEQ,
        CoreOp::Lt => IF_ICMPGE,
        CoreOp::Ge => IF_ICMPLT,
        CoreOp::Gt => IF_ICMPLE,
        CoreOp::Le => IF_ICMPGT,
        CoreOp::Or | CoreOp::And | CoreOp::Add | CoreOp::Sub => IF_ICMPEQ,
        CoreOp::Mul | CoreOp::Div | CoreOp::Rem => IF_ICMPEQ,
    }
}

impl<'a> Coder<'a> {
    /// Jumps to a label where an expression is as is told. Where it isn't the code goes on behind.
    ///
    /// # Errors
    /// `Memory` only.
    #[tactic(auto, using(crate::proofs::Seen::seen))]
    #[cycle(expressions)]
    pub fn jump(
        &self,
        draft: &mut Draft<'a>,
        locals: &Locals,
        expr: &'a CoreExpr,
        holds: bool,
        label: u32,
    ) -> Result<(), Memory>
        ensures { OnOk result (draft_in self.now draft.new ≡ jump self.now.core.now (method_in self.now) locals.now
            (expr_of expr.now) holds label (draft_in self.now draft.old)) }
    {
        match expr.kind {
            CoreExprKind::Truth(truth) => self.jump_literal(draft, truth, holds, label),
            CoreExprKind::Not(ref inner) => self.jump(draft, locals, inner, !holds, label),
            CoreExprKind::Binary(op, ref left, ref right) => match op {
                CoreOp::Add | CoreOp::Sub | CoreOp::Mul | CoreOp::Div | CoreOp::Rem => {
                    self.jump_value(draft, locals, expr, holds, label)
                }
                CoreOp::Or | CoreOp::And | CoreOp::Eq | CoreOp::Ne => {
                    self.jump_test(draft, locals, op, left, right, holds, label)
                }
                CoreOp::Lt | CoreOp::Le | CoreOp::Gt | CoreOp::Ge => {
                    self.jump_test(draft, locals, op, left, right, holds, label)
                }
            },
            CoreExprKind::Int(_)
            | CoreExprKind::Text(_)
            | CoreExprKind::Null
            | CoreExprKind::Var(_)
            | CoreExprKind::Constant { .. }
            | CoreExprKind::Neg(_)
            | CoreExprKind::Protocol { .. }
            | CoreExprKind::Helper { .. }
            | CoreExprKind::Static { .. }
            | CoreExprKind::Equals(_, _)
            | CoreExprKind::Concat(_, _)
            | CoreExprKind::Session { .. }
            | CoreExprKind::New(_) => self.jump_value(draft, locals, expr, holds, label),
        }
    }

    // A truth value that is written.
    fn jump_literal(
        &self,
        draft: &mut Draft<'a>,
        truth: bool,
        holds: bool,
        label: u32,
    ) -> Result<(), Memory>
        ensures { OnOk result (draft_in self.now draft.new ≡ literal_jump truth holds label (draft_in self.now draft.old)) }
    {
        if truth == holds {
            return self.put_jump(draft, GOTO, label);
        }
        Ok(())
    }

    // The value, and a test of it.
    #[cycle(expressions)]
    fn jump_value(
        &self,
        draft: &mut Draft<'a>,
        locals: &Locals,
        expr: &'a CoreExpr,
        holds: bool,
        label: u32,
    ) -> Result<(), Memory>
        ensures { OnOk result (draft_in self.now draft.new ≡ emit (test holds label)
            (value self.now.core.now (method_in self.now) locals.now (expr_of expr.now) (draft_in self.now draft.old))) }
    {
        self.value(draft, locals, expr)?;
        if holds {
            return self.put_jump(draft, IFNE, label);
        }
        self.put_jump(draft, IFEQ, label)
    }

    /// A test with two operands.
    #[cycle(expressions)]
    pub(crate) fn jump_test(
        &self,
        draft: &mut Draft<'a>,
        locals: &Locals,
        op: CoreOp,
        left: &'a CoreExpr,
        right: &'a CoreExpr,
        holds: bool,
        label: u32,
    ) -> Result<(), Memory>
        ensures { OnOk result (draft_in self.now draft.new ≡ tested_binary self.now.core.now (method_in self.now) locals.now op
            (expr_of left.now) (expr_of right.now) holds label (draft_in self.now draft.old)) }
    {
        match op {
            CoreOp::Or => {
                if holds {
                    return self.jump_both(draft, locals, left, right, true, label);
                }
                self.jump_past(draft, locals, left, right, false, label)
            }
            CoreOp::And => {
                if holds {
                    return self.jump_past(draft, locals, left, right, true, label);
                }
                self.jump_both(draft, locals, left, right, false, label)
            }
            CoreOp::Eq | CoreOp::Ne | CoreOp::Lt | CoreOp::Le | CoreOp::Gt | CoreOp::Ge => {
                self.compare(draft, locals, op, left, right, holds, label)
            }
            CoreOp::Add | CoreOp::Sub | CoreOp::Mul | CoreOp::Div | CoreOp::Rem => {
                self.compare(draft, locals, op, left, right, holds, label)
            }
        }
    }

    // Both operands jump where they are as is told.
    #[cycle(expressions)]
    fn jump_both(
        &self,
        draft: &mut Draft<'a>,
        locals: &Locals,
        left: &'a CoreExpr,
        right: &'a CoreExpr,
        holds: bool,
        label: u32,
    ) -> Result<(), Memory>
        ensures { OnOk result (draft_in self.now draft.new ≡ jump self.now.core.now (method_in self.now) locals.now
            (expr_of right.now) holds label (jump self.now.core.now (method_in self.now) locals.now (expr_of left.now) holds label
            (draft_in self.now draft.old))) }
    {
        self.jump(draft, locals, left, holds, label)?;
        self.jump(draft, locals, right, holds, label)
    }

    // The first operand jumps past the second where it settles the whole.
    #[cycle(expressions)]
    fn jump_past(
        &self,
        draft: &mut Draft<'a>,
        locals: &Locals,
        left: &'a CoreExpr,
        right: &'a CoreExpr,
        holds: bool,
        label: u32,
    ) -> Result<(), Memory>
        ensures { OnOk result (draft_in self.now draft.new
            ≡ past (jump self.now.core.now (method_in self.now) locals.now (expr_of left.now) (not holds))
            (jump self.now.core.now (method_in self.now) locals.now (expr_of right.now) holds label) (draft_in self.now draft.old)) }
    {
        let end = self.open(draft)?;
        self.jump(draft, locals, left, !holds, end)?;
        self.jump(draft, locals, right, holds, label)?;
        self.close(draft, end)
    }

    // A comparison, of two ints or with `null`.
    #[cycle(expressions)]
    fn compare(
        &self,
        draft: &mut Draft<'a>,
        locals: &Locals,
        op: CoreOp,
        left: &'a CoreExpr,
        right: &'a CoreExpr,
        holds: bool,
        label: u32,
    ) -> Result<(), Memory>
        ensures { OnOk result (draft_in self.now draft.new ≡ comparison op (compared (expr_of left.now) (expr_of right.now))
            (forms self.now.core.now (method_in self.now) locals.now (expr_of left.now))
            (forms self.now.core.now (method_in self.now) locals.now (expr_of right.now)) holds label (draft_in self.now draft.old)) }
    {
        if is_null(right) {
            return self.compare_null(draft, locals, op, left, holds, label);
        }
        if is_null(left) {
            return self.compare_null(draft, locals, op, right, holds, label);
        }
        self.two_values(draft, locals, left, right)?;
        self.put_jump(draft, compare_op(op, holds), label)
    }

    // A comparison with `null`.
    #[cycle(expressions)]
    fn compare_null(
        &self,
        draft: &mut Draft<'a>,
        locals: &Locals,
        op: CoreOp,
        expr: &'a CoreExpr,
        holds: bool,
        label: u32,
    ) -> Result<(), Memory>
        ensures { OnOk result (draft_in self.now draft.new
            ≡ with_null op (value self.now.core.now (method_in self.now) locals.now (expr_of expr.now)) holds label
            (draft_in self.now draft.old)) }
    {
        self.value(draft, locals, expr)?;
        self.put_jump(draft, null_op(op, holds), label)
    }
}
