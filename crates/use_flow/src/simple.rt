//! Statements without statements inside: what flows on behind them, and what they ask.
//! Where a scope ends, no variable that goes out of it may have a state that isn't marked drop.

ghost use Rattle.std.specs.Prelude.{◌≡◌, List, Some, None, [], reverse, IfOk, OnOk};
ghost use Rattle.jv_core.specs.View.{expr_of};
ghost use Rattle.use_rules.specs.Flow.{placed, flow};
ghost use Rattle.use_rules.specs.State.{Jump};
ghost use Rattle.use_flow.specs.View.{log_of};
ghost use Rattle.use_flow.specs.inner.Ending.{left};
ghost use Rattle.use_flow.specs.inner.Followed.{seen};
ghost use Rattle.use_flow.specs.inner.Simple.{exit, local, declared, assigned, printed, dropped, returned};

use crate::Flow;
use crate::evaluated::Value;
use crate::scene::{Scene, typestate_of};
use jv_core::{CoreExpr, CoreVar, Var};
use mg_sets::StateSet;
use mg_text::{Memory, Place};
use std::alloc::Global;
use use_elements::{Rule, Sets, Subject, Title, empty_set, judge};

// What is known where a variable has this set.
pub(crate) fn put_in(now: Option<Sets>, variable: usize, set: StateSet) -> Option<Sets>
    ensures { result ≡ placed variable set now }
{
    let mut sets = now?;
    sets.put(variable, set);
    Some(sets)
}

impl<'a> Scene<'a> {
    // Where a scope ends: the slots that are left may have no state, and are empty behind it.
    #[tactic(auto, using(crate::proofs::Simply::exits))]
    pub(crate) fn exit(
        &self,
        alloc: Global,
        place: Place,
        slots: &[u32],
        now: Option<Sets>,
        log: &mut Flow,
    ) -> Result<Option<Sets>, Memory>
        ensures { (js : List Jump) → IfOk result
            (λ n. flow n js (log_of log.new) ≡ exit (seen self.now) place slots.now (flow now js (log_of log.old))) }
    {
        let Some(mut sets) = now else {
            return Ok(None);
        };
        self.judge_left(alloc, &mut log.failed, place, slots, &sets)?;
        self.leave(alloc, slots, &mut sets)?;
        Ok(Some(sets))
    }

    // A declared slot has the set of its value.
    #[tactic(auto, using(crate::proofs::Simply::locals))]
    pub(crate) fn declare(
        &self,
        alloc: Global,
        slot: u32,
        value: &CoreExpr,
        now: Option<Sets>,
        log: &mut Flow,
    ) -> Result<Option<Sets>, Memory>
        ensures { IfOk result (λ n. flow n [] (log_of log.new) ≡ declared (seen self.now) slot (expr_of value.now) now (log_of log.old)) }
    {
        let width = self.variable_width(Var::Slot(slot));
        let Value { set, ways } = self.eval_now(alloc, width, value, now, log)?;
        let now = ways.after()?;
        Ok(put_in(now, slot as usize, set))
    }

    // A declaration whose scope is itself.
    pub(crate) fn step_local(
        &self,
        alloc: Global,
        place: Place,
        slot: u32,
        value: &CoreExpr,
        sets: Sets,
        log: &mut Flow,
    ) -> Result<Option<Sets>, Memory>
        ensures { IfOk result (λ n. flow n [] (log_of log.new) ≡ local (seen self.now) place slot (expr_of value.now) sets
            (log_of log.old)) }
    {
        let now = self.declare(alloc, slot, value, Some(sets), log)?;
        let left = [slot];
        self.exit(alloc, place, &left, now, log)
    }

    // An assignment, before which the variable may have no state that isn't marked drop.
    #[tactic(auto, using(crate::proofs::Simply::assignments))]
    pub(crate) fn step_assign(
        &self,
        alloc: Global,
        target: CoreVar,
        value: &CoreExpr,
        sets: Sets,
        log: &mut Flow,
    ) -> Result<Option<Sets>, Memory>
        ensures { IfOk result (λ n. flow n [] (log_of log.new) ≡ assigned (seen self.now) target (expr_of value.now) sets
            (log_of log.old)) }
    {
        let width = self.variable_width(target.var);
        let Value { set, ways } = self.eval(alloc, width, value, sets, log)?;
        let now = ways.after()?;
        let Some(mut sets) = now else {
            return Ok(None);
        };
        let failed = &mut log.failed;
        self.judge_variable(
            alloc,
            failed,
            Rule::Overwritten,
            target.place,
            target.var,
            &sets,
        )?;
        sets.put(self.variable_at(target.var), set);
        Ok(Some(sets))
    }

    // A text that is printed.
    pub(crate) fn step_print(
        &self,
        alloc: Global,
        value: &CoreExpr,
        sets: Sets,
        log: &mut Flow,
    ) -> Result<Option<Sets>, Memory>
        ensures { IfOk result (λ n. flow n [] (log_of log.new) ≡ printed (seen self.now) (expr_of value.now) sets (log_of log.old)) }
    {
        let Value { set, ways } = self.eval(alloc, 0, value, sets, log)?;
        drop(set);
        ways.after()
    }

    // A value that is dropped, which may have no state that isn't marked drop.
    pub(crate) fn step_dropped(
        &self,
        alloc: Global,
        place: Place,
        value: &CoreExpr,
        sets: Sets,
        log: &mut Flow,
    ) -> Result<Option<Sets>, Memory>
        ensures { IfOk result (λ n. flow n [] (log_of log.new) ≡ dropped (seen self.now) place (expr_of value.now) sets (log_of log.old)) }
    {
        let subject = Subject {
            place,
            variable: self.behind_variables()?,
            title: Title::Value,
            class: self.class_or_none(self.type_dropped(value)),
        };
        let Value { set, ways } = self.eval(alloc, 0, value, sets, log)?;
        let names = self.core.names();
        let typestate = typestate_of(self.core, subject.class);
        let failed = &mut log.failed;
        judge(
            alloc,
            names,
            failed,
            subject,
            Rule::LeftOpen,
            typestate,
            &set,
        )?;
        ways.after()
    }

    // A method is left with a value. The variables in scope stand in the order of their declarations.
    #[tactic(auto, using(crate::proofs::Simply::returns))]
    pub(crate) fn step_return(
        &self,
        alloc: Global,
        place: Place,
        value: &CoreExpr,
        scope: &[u32],
        sets: Sets,
        log: &mut Flow,
    ) -> Result<(), Memory>
        ensures { OnOk result (flow None [] (log_of log.new) ≡ returned (seen self.now) place (expr_of value.now) (reverse scope.now) sets
            (log_of log.old)) }
    {
        let width = self.width_of(self.method.result);
        let label = self.label_of(value);
        let Value { set, ways } = self.eval(alloc, width, value, sets, log)?;
        let now = ways.after()?;
        self.leave_method(alloc, place, label, set, scope, now, log)
    }

    // A method is left without a value.
    pub(crate) fn step_leave(
        &self,
        alloc: Global,
        place: Place,
        scope: &[u32],
        sets: Sets,
        log: &mut Flow,
    ) -> Result<(), Memory>
        ensures { OnOk result (log_of log.new ≡ left (seen self.now) place None [] (reverse scope.now) (Some sets) (log_of log.old)) }
    {
        let value = empty_set(alloc, 0)?;
        self.leave_method(alloc, place, None, value, scope, Some(sets), log)
    }
}
