//! Expressions: each is followed once, from left to right.
//! What isn't reached flows nowhere.

ghost use Rattle.std.specs.Prelude.{◌≡◌, Some, [], map, IfOk};
ghost use Rattle.jv_core.specs.View.{expr_of, exprs_of};
ghost use Rattle.use_rules.specs.Flow.{alike};
ghost use Rattle.use_rules.specs.State.{Log};
ghost use Rattle.use_flow.specs.View.{log_of};
ghost use Rattle.use_flow.specs.inner.Followed.{seen, eval, eval_all, width_of};
ghost use Rattle.use_flow.specs.inner.CallForms.{called_as};
ghost use Rattle.use_flow.specs.inner.Values.{evaluated_of, argued_of, test_of, null_tested, operands, conjunction, disjunction};
ghost use Rattle.use_flow.specs.inner.Values.{read, settled, parted, both_ways, opposite, behind};

use crate::Flow;
use crate::arguments::{method_at, params_of};
use crate::calling::begin_of;
use crate::evaluated::{Arguments, CallForm, NullTest, Value, Ways};
use crate::null_tests::null_test;
use crate::scene::{Scene, elements_in, typestate_of};
use jv_core::{CoreExpr, CoreExprKind, CoreOp, CoreSlot, Var};
use mg_text::{Memory, Place};
use std::alloc::Global;
use use_elements::{Mapping, Sets, meet};

impl<'a> Scene<'a> {
    // A variable that is read.
    fn read_value(
        &self,
        alloc: Global,
        place: Place,
        variable: Var,
        sets: Sets,
        log: &mut Flow,
    ) -> Result<Value, Memory>
        ensures { IfOk result (λ v. evaluated_of v (log_of log.new) ≡ read (seen self.now) place variable sets (log_of log.old)) }
    {
        let mut sets = sets;
        let set = self.read(alloc, place, variable, &mut sets, log)?;
        Ok(Value {
            set,
            ways: Ways::Alike(Some(sets)),
        })
    }

    // A variable that is tested for null: each way leaves out what the other has.
    fn null_tested(&self, alloc: Global, test: NullTest, sets: Sets) -> Result<Value, Memory>
        ensures { (log : Log) → IfOk result (λ v. evaluated_of v log ≡ null_tested (seen self.now) (test_of test) sets log) }
    {
        let mut null = sets;
        let mut object = null.copy(alloc)?;
        self.narrow(alloc, Mapping::OnlyNull, test.variable, &mut null)?;
        self.narrow(alloc, Mapping::NotNull, test.variable, &mut object)?;
        if test.holds {
            return Value::apart(alloc, Some(null), Some(object));
        }
        Value::apart(alloc, Some(object), Some(null))
    }

    /// Follows an expression from what is known before it. `width` is how many elements the variable
    /// may have that takes the value.
    ///
    /// # Errors
    /// `Memory` only.
    #[tactic(auto, using(crate::proofs::Arms::arms))]
    #[cycle(expressions)]
    pub(crate) fn eval(
        &self,
        alloc: Global,
        width: usize,
        expr: &CoreExpr,
        sets: Sets,
        log: &mut Flow,
    ) -> Result<Value, Memory>
        ensures { IfOk result (λ v. evaluated_of v (log_of log.new) ≡ eval (seen self.now) width (expr_of expr.now) (Some sets)
            (log_of log.old)) }
    {
        match &expr.kind {
            CoreExprKind::Int(_) | CoreExprKind::Text(_) | CoreExprKind::Constant { .. } => {
                Value::plain(alloc, Some(sets))
            }
            CoreExprKind::Truth(holds) => {
                if *holds {
                    return Value::apart(alloc, Some(sets), None);
                }
                Value::apart(alloc, None, Some(sets))
            }
            CoreExprKind::Null => Value::single(alloc, width, 0, sets),
            CoreExprKind::New(class) => {
                let begin = begin_of(typestate_of(self.core, *class));
                Value::single(alloc, elements_in(self.core, *class), begin, sets)
            }
            CoreExprKind::Var(variable) => {
                self.read_value(alloc, expr.place, *variable, sets, log)
            }
            CoreExprKind::Neg(inner) => {
                let now = self.eval_past(alloc, inner, Some(sets), log)?;
                Value::plain(alloc, now)
            }
            CoreExprKind::Not(inner) => self.eval_not(alloc, inner, sets, log),
            CoreExprKind::Binary(op, left, right) => match null_test(*op, left, right) {
                Some(test) => self.null_tested(alloc, test, sets),
                None => match op {
                    CoreOp::And => self.eval_and(alloc, left, right, sets, log),
                    CoreOp::Or => self.eval_or(alloc, left, right, sets, log),
                    _ => self.eval_both(alloc, left, right, sets, log),
                },
            },
            CoreExprKind::Equals(left, right) | CoreExprKind::Concat(left, right) => {
                self.eval_both(alloc, left, right, sets, log)
            }
            CoreExprKind::Session { args, .. } => {
                self.eval_session(alloc, args.as_slice(), sets, log)
            }
            CoreExprKind::Protocol {
                receiver,
                method,
                args,
            } => {
                let form = CallForm::Protocol(*receiver);
                self.eval_call(alloc, form, *method, args.as_slice(), sets, log)
            }
            CoreExprKind::Helper { method, args } => {
                self.eval_call(alloc, CallForm::Helper, *method, args.as_slice(), sets, log)
            }
            CoreExprKind::Static { method, args } => {
                self.eval_call(alloc, CallForm::Static, *method, args.as_slice(), sets, log)
            }
        }
    }

    // Behind an expression whose value is dropped.
    #[cycle(expressions)]
    fn eval_past(
        &self,
        alloc: Global,
        expr: &CoreExpr,
        now: Option<Sets>,
        log: &mut Flow,
    ) -> Result<Option<Sets>, Memory>
        ensures { IfOk result (λ n. alike [] n (log_of log.new)
            ≡ settled (eval (seen self.now) 0 (expr_of expr.now) now (log_of log.old))) }
    {
        let Value { set, ways } = self.eval_now(alloc, 0, expr, now, log)?;
        drop(set);
        ways.after()
    }

    // Two operands, one after the other, where neither they nor the value have an object.
    #[cycle(expressions)]
    fn eval_both(
        &self,
        alloc: Global,
        left: &CoreExpr,
        right: &CoreExpr,
        sets: Sets,
        log: &mut Flow,
    ) -> Result<Value, Memory>
        ensures { IfOk result (λ v. evaluated_of v (log_of log.new)
            ≡ operands (seen self.now) (expr_of left.now) (expr_of right.now) sets (log_of log.old)) }
    {
        let now = self.eval_past(alloc, left, Some(sets), log)?;
        let behind = self.eval_past(alloc, right, now, log)?;
        Value::plain(alloc, behind)
    }

    // Where a condition holds, and where it doesn't.
    #[cycle(expressions)]
    pub(crate) fn eval_ways(
        &self,
        alloc: Global,
        expr: &CoreExpr,
        now: Option<Sets>,
        log: &mut Flow,
    ) -> Result<(Option<Sets>, Option<Sets>), Memory>
        ensures { IfOk result (λ r. parted r.0 r.1 (log_of log.new)
            ≡ both_ways (eval (seen self.now) 0 (expr_of expr.now) now (log_of log.old))) }
    {
        let Value { set, ways } = self.eval_now(alloc, 0, expr, now, log)?;
        drop(set);
        ways.split(alloc)
    }

    // The opposite of a condition.
    #[cycle(expressions)]
    fn eval_not(
        &self,
        alloc: Global,
        inner: &CoreExpr,
        sets: Sets,
        log: &mut Flow,
    ) -> Result<Value, Memory>
        ensures { IfOk result (λ v. evaluated_of v (log_of log.new) ≡ opposite (seen self.now) (expr_of inner.now) sets (log_of log.old)) }
    {
        let (holds, fails) = self.eval_ways(alloc, inner, Some(sets), log)?;
        Value::apart(alloc, fails, holds)
    }

    // The operands of `&&`: the second is evaluated where the first holds.
    #[cycle(expressions)]
    fn eval_and(
        &self,
        alloc: Global,
        left: &CoreExpr,
        right: &CoreExpr,
        sets: Sets,
        log: &mut Flow,
    ) -> Result<Value, Memory>
        ensures { IfOk result (λ v. evaluated_of v (log_of log.new)
            ≡ conjunction (seen self.now) (expr_of left.now) (expr_of right.now) sets (log_of log.old)) }
    {
        let (holds, fails) = self.eval_ways(alloc, left, Some(sets), log)?;
        let (both, neither) = self.eval_ways(alloc, right, holds, log)?;
        let fails = meet(fails, neither)?;
        Value::apart(alloc, both, fails)
    }

    // The operands of `||`: the second is evaluated where the first doesn't hold.
    #[cycle(expressions)]
    fn eval_or(
        &self,
        alloc: Global,
        left: &CoreExpr,
        right: &CoreExpr,
        sets: Sets,
        log: &mut Flow,
    ) -> Result<Value, Memory>
        ensures { IfOk result (λ v. evaluated_of v (log_of log.new)
            ≡ disjunction (seen self.now) (expr_of left.now) (expr_of right.now) sets (log_of log.old)) }
    {
        let (holds, fails) = self.eval_ways(alloc, left, Some(sets), log)?;
        let (either, neither) = self.eval_ways(alloc, right, fails, log)?;
        let now = meet(holds, either)?;
        Value::apart(alloc, now, neither)
    }

    // A call that takes no object.
    #[cycle(expressions)]
    fn eval_session(
        &self,
        alloc: Global,
        args: &[CoreExpr],
        sets: Sets,
        log: &mut Flow,
    ) -> Result<Value, Memory>
        ensures { IfOk result (λ v. evaluated_of v (log_of log.new)
            ≡ behind (eval_all (seen self.now) [] (exprs_of (map expr_of args.now)) (Some sets) (log_of log.old))) }
    {
        let Arguments { sets: given, now } = self.eval_all(alloc, &[], args, Some(sets), log)?;
        drop(given);
        Value::plain(alloc, now)
    }

    // An expression that may not be reached.
    #[tactic(auto, using(crate::proofs::Following::calls))]
    #[cycle(expressions)]
    pub(crate) fn eval_now(
        &self,
        alloc: Global,
        width: usize,
        expr: &CoreExpr,
        now: Option<Sets>,
        log: &mut Flow,
    ) -> Result<Value, Memory>
        ensures { IfOk result (λ v. evaluated_of v (log_of log.new) ≡ eval (seen self.now) width (expr_of expr.now) now (log_of log.old)) }
    {
        match now {
            Some(sets) => self.eval(alloc, width, expr, sets, log),
            None => Value::plain(alloc, None),
        }
    }

    // Arguments, from left to right, each as wide as its parameter.
    #[tactic(auto, using(crate::proofs::Following::arguments))]
    #[cycle(expressions)]
    pub(crate) fn eval_all(
        &self,
        alloc: Global,
        params: &[CoreSlot],
        args: &[CoreExpr],
        now: Option<Sets>,
        log: &mut Flow,
    ) -> Result<Arguments, Memory>
        ensures { IfOk result (λ a. argued_of a (log_of log.new) ≡ eval_all (seen self.now)
            (map (width_of (seen self.now)) (map (λ s. s.ty) params.now)) (exprs_of (map expr_of args.now)) now (log_of log.old)) }
    {
        let mut sets = Sets::new(alloc);
        let mut now = now;
        for i in 0..args.len() {
            let width = match params.get(i) {
                Some(param) => self.width_of(param.ty),
                None => 0,
            };
            let Value { set, ways } = self.eval_now(alloc, width, &args[i], now, log)?;
            now = ways.after()?;
            sets.push(set)?;
        }
        Ok(Arguments { sets, now })
    }

    // A call of a method, behind its arguments.
    #[tactic(auto, using(crate::proofs::Following::calls))]
    #[cycle(expressions)]
    fn eval_call(
        &self,
        alloc: Global,
        form: CallForm,
        method: u32,
        args: &[CoreExpr],
        sets: Sets,
        log: &mut Flow,
    ) -> Result<Value, Memory>
        ensures { IfOk result (λ v. evaluated_of v (log_of log.new) ≡ called_as (seen self.now) form method
            (exprs_of (map expr_of args.now)) sets (log_of log.old)) }
    {
        let Some(called) = method_at(self.core, method) else {
            return self.eval_session(alloc, args, sets, log);
        };
        let args = self.eval_all(alloc, params_of(called), args, Some(sets), log)?;
        match form {
            CallForm::Protocol(receiver) => {
                self.protocol_call(alloc, receiver, method, called, args, log)
            }
            CallForm::Helper => self.helper_call(alloc, method, called, args, log),
            CallForm::Static => self.static_call(alloc, method, called, args, log),
        }
    }
}
