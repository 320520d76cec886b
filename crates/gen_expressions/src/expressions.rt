//! Expressions: instructions that leave the value on top.

ghost use Rattle.std.specs.Prelude.{◌≡◌, OnOk, map, not};
ghost use Rattle.jv_core.specs.View.{expr_of, exprs_of};
ghost use Rattle.gen_rules.specs.Symbolic.{plain};
ghost use Rattle.gen_expressions.specs.View.{operand_of, built_in_of};
ghost use Rattle.gen_expressions.specs.Held.{draft_in, method_in};
ghost use Rattle.gen_expressions.specs.Drafting.{emit, value, arguments, truth_at, truth_of, tested_binary, summed, created};
ghost use Rattle.gen_expressions.specs.Drafting.{two_values, forms, jump};

use crate::coder::{Coder, Draft};
use crate::locals::Locals;
use crate::symbolic::{Operand, session_member};
use crate::typed::joins;
use cls_tree::opcodes::{
    ACONST_NULL, DUP, GOTO, IADD, IDIV, IMUL, INEG, INVOKESPECIAL, INVOKESTATIC, INVOKEVIRTUAL,
    IREM, ISUB, LDC, NEW,
};
use jv_core::{CoreExpr, CoreExprKind, CoreOp};
use mg_text::Memory;
use vm_model::Built;

impl<'a> Coder<'a> {
    /// An expression, whose value is then on top.
    ///
    /// # Errors
    /// `Memory` only.
    #[tactic(auto, using(crate::proofs::Seen::seen))]
    #[cycle(expressions)]
    pub fn value(
        &self,
        draft: &mut Draft<'a>,
        locals: &Locals,
        expr: &'a CoreExpr,
    ) -> Result<(), Memory>
        ensures { OnOk result (draft_in self.now draft.new ≡ value self.now.core.now (method_in self.now) locals.now (expr_of expr.now)
            (draft_in self.now draft.old)) }
    {
        match &expr.kind {
            CoreExprKind::Int(number) => self.put_int(draft, *number),
            CoreExprKind::Truth(holds) => self.put_truth(draft, *holds),
            CoreExprKind::Text(text) => self.put(draft, LDC, Operand::Text(text)),
            CoreExprKind::Null => self.put_plain(draft, ACONST_NULL),
            CoreExprKind::Var(variable) => self.put_variable(draft, locals, *variable),
            CoreExprKind::Constant { position, .. } => self.put_number(draft, *position),
            CoreExprKind::Neg(inner) => {
                self.value(draft, locals, inner)?;
                self.put_plain(draft, INEG)
            }
            CoreExprKind::Not(inner) => self.truth_of_not(draft, locals, inner),
            CoreExprKind::Binary(op, left, right) => match op {
                CoreOp::Add => self.sum(draft, locals, left, right),
                CoreOp::Sub => self.operation(draft, locals, left, right, ISUB),
                CoreOp::Mul => self.operation(draft, locals, left, right, IMUL),
                CoreOp::Div => self.operation(draft, locals, left, right, IDIV),
                CoreOp::Rem => self.operation(draft, locals, left, right, IREM),
                CoreOp::Or | CoreOp::And | CoreOp::Eq | CoreOp::Ne => {
                    self.truth_of_test(draft, locals, *op, left, right)
                }
                CoreOp::Lt | CoreOp::Le | CoreOp::Gt | CoreOp::Ge => {
                    self.truth_of_test(draft, locals, *op, left, right)
                }
            },
            CoreExprKind::Protocol {
                receiver,
                method,
                args,
            } => {
                self.put_variable(draft, locals, receiver.var)?;
                let called = Operand::Method(*method);
                self.call(draft, locals, args.as_slice(), INVOKEVIRTUAL, called)
            }
            CoreExprKind::Helper { method, args } => {
                self.put_own(draft)?;
                let called = Operand::Method(*method);
                self.call(draft, locals, args.as_slice(), INVOKESPECIAL, called)
            }
            CoreExprKind::Static { method, args } => {
                let called = Operand::Method(*method);
                self.call(draft, locals, args.as_slice(), INVOKESTATIC, called)
            }
            CoreExprKind::Equals(left, right) => {
                self.call_text(draft, locals, left, right, Built::Equals)
            }
            CoreExprKind::Concat(left, right) => {
                self.call_text(draft, locals, left, right, Built::Concat)
            }
            CoreExprKind::Session { call, args } => {
                let called = Operand::BuiltIn(session_member(*call));
                self.call(draft, locals, args.as_slice(), INVOKESTATIC, called)
            }
            CoreExprKind::New(class) => self.put_new(draft, *class),
        }
    }

    // A new object of a class.
    fn put_new(&self, draft: &mut Draft<'a>, class: u32) -> Result<(), Memory>
        ensures { OnOk result (draft_in self.now draft.new ≡ created self.now.core.now (method_in self.now) class
            (draft_in self.now draft.old)) }
    {
        self.put(draft, NEW, Operand::Class(class))?;
        self.put_plain(draft, DUP)?;
        self.put(draft, INVOKESPECIAL, Operand::Constructor(class))
    }

    /// Two expressions, the second on top.
    #[cycle(expressions)]
    pub(crate) fn two_values(
        &self,
        draft: &mut Draft<'a>,
        locals: &Locals,
        left: &'a CoreExpr,
        right: &'a CoreExpr,
    ) -> Result<(), Memory>
        ensures { OnOk result (draft_in self.now draft.new ≡ value self.now.core.now (method_in self.now) locals.now (expr_of right.now)
            (value self.now.core.now (method_in self.now) locals.now (expr_of left.now) (draft_in self.now draft.old))) }
    {
        self.value(draft, locals, left)?;
        self.value(draft, locals, right)
    }

    // An operation on two ints.
    #[cycle(expressions)]
    fn operation(
        &self,
        draft: &mut Draft<'a>,
        locals: &Locals,
        left: &'a CoreExpr,
        right: &'a CoreExpr,
        op: u8,
    ) -> Result<(), Memory>
        ensures { OnOk result (draft_in self.now draft.new
            ≡ two_values (forms self.now.core.now (method_in self.now) locals.now (expr_of left.now))
            (forms self.now.core.now (method_in self.now) locals.now (expr_of right.now)) (plain op) (draft_in self.now draft.old)) }
    {
        self.two_values(draft, locals, left, right)?;
        self.put_plain(draft, op)
    }

    // A method of String, called on a text.
    #[cycle(expressions)]
    fn call_text(
        &self,
        draft: &mut Draft<'a>,
        locals: &Locals,
        left: &'a CoreExpr,
        right: &'a CoreExpr,
        called: Built,
    ) -> Result<(), Memory>
        ensures { OnOk result (draft_in self.now draft.new
            ≡ two_values (forms self.now.core.now (method_in self.now) locals.now (expr_of left.now))
            (forms self.now.core.now (method_in self.now) locals.now (expr_of right.now))
            (record { op = INVOKEVIRTUAL; operand = built_in_of called }) (draft_in self.now draft.old)) }
    {
        self.two_values(draft, locals, left, right)?;
        self.put(draft, INVOKEVIRTUAL, Operand::BuiltIn(called))
    }

    // `+`, of ints or with a text on one side.
    #[cycle(expressions)]
    fn sum(
        &self,
        draft: &mut Draft<'a>,
        locals: &Locals,
        left: &'a CoreExpr,
        right: &'a CoreExpr,
    ) -> Result<(), Memory>
        ensures { OnOk result (draft_in self.now draft.new ≡ summed self.now.core.now (method_in self.now) locals.now (expr_of left.now)
            (expr_of right.now) (draft_in self.now draft.old)) }
    {
        let left_type = self.type_of(left);
        let right_type = self.type_of(right);
        if !joins(left_type, right_type) {
            return self.operation(draft, locals, left, right, IADD);
        }
        self.value(draft, locals, left)?;
        self.put_text_of(draft, left_type)?;
        self.value(draft, locals, right)?;
        self.put_text_of(draft, right_type)?;
        self.put(draft, INVOKEVIRTUAL, Operand::BuiltIn(Built::Concat))
    }

    // 1 where code comes here, and 0 where it jumped to the first label.
    fn put_truth_at(&self, draft: &mut Draft<'a>, fails: u32, end: u32) -> Result<(), Memory>
        ensures { OnOk result (draft_in self.now draft.new ≡ truth_at fails end (draft_in self.now draft.old)) }
    {
        self.put_int(draft, 1)?;
        self.put_jump(draft, GOTO, end)?;
        self.close(draft, fails)?;
        self.put_int(draft, 0)?;
        self.close(draft, end)
    }

    // The value of `!`.
    #[cycle(expressions)]
    fn truth_of_not(
        &self,
        draft: &mut Draft<'a>,
        locals: &Locals,
        inner: &'a CoreExpr,
    ) -> Result<(), Memory>
        ensures { OnOk result (draft_in self.now draft.new
            ≡ truth_of (λ h l. jump self.now.core.now (method_in self.now) locals.now (expr_of inner.now) (not h) l)
            (draft_in self.now draft.old)) }
    {
        let end = self.open(draft)?;
        let fails = self.open(draft)?;
        self.jump(draft, locals, inner, true, fails)?;
        self.put_truth_at(draft, fails, end)
    }

    // The value of a test with two operands.
    #[cycle(expressions)]
    fn truth_of_test(
        &self,
        draft: &mut Draft<'a>,
        locals: &Locals,
        op: CoreOp,
        left: &'a CoreExpr,
        right: &'a CoreExpr,
    ) -> Result<(), Memory>
        ensures { OnOk result (draft_in self.now draft.new
            ≡ truth_of (tested_binary self.now.core.now (method_in self.now) locals.now op (expr_of left.now) (expr_of right.now))
            (draft_in self.now draft.old)) }
    {
        let end = self.open(draft)?;
        let fails = self.open(draft)?;
        self.jump_test(draft, locals, op, left, right, false, fails)?;
        self.put_truth_at(draft, fails, end)
    }

    // Arguments, from left to right.
    #[tactic(auto, using(crate::proofs::Loops::given))]
    #[cycle(expressions)]
    fn arguments(
        &self,
        draft: &mut Draft<'a>,
        locals: &Locals,
        args: &'a [CoreExpr],
    ) -> Result<(), Memory>
        ensures { OnOk result (draft_in self.now draft.new ≡ arguments self.now.core.now (method_in self.now) locals.now
            (exprs_of (map expr_of args.now)) (draft_in self.now draft.old)) }
    {
        for arg in args {
            self.value(draft, locals, arg)?;
        }
        Ok(())
    }

    // A call, behind its object where it needs one.
    #[cycle(expressions)]
    fn call(
        &self,
        draft: &mut Draft<'a>,
        locals: &Locals,
        args: &'a [CoreExpr],
        op: u8,
        called: Operand<'a>,
    ) -> Result<(), Memory>
        ensures { OnOk result (draft_in self.now draft.new
            ≡ emit (record { op = op; operand = operand_of self.now.core.now called.entry })
            (arguments self.now.core.now (method_in self.now) locals.now (exprs_of (map expr_of args.now))
            (draft_in self.now draft.old))) }
    {
        self.arguments(draft, locals, args)?;
        self.put(draft, op, called)
    }
}
