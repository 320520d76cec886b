//! What a method leaves behind at its ends: its variables, its result and the own fields.
//! Fields go to the states that follow; behind a helper they go to its own tables.

ghost use Rattle.std.specs.Prelude.{◌≡◌, ◌++◌, option_map, reverse, OnOk};
ghost use Rattle.ts_tree.specs.View.{target_of};
ghost use Rattle.use_flow.specs.View.{log_of};
ghost use Rattle.use_flow.specs.inner.Calling.{which_of};
ghost use Rattle.use_flow.specs.inner.Ending.{followed, fields_left, leaves_fields, left};
ghost use Rattle.use_flow.specs.inner.Fields.{outs_in};
ghost use Rattle.use_flow.specs.inner.Followed.{seen, own_fields, open_fields, result_out};

use crate::exits::ends;
use crate::fields::{FieldTable, send};
use crate::scene::{Scene, class_in, typestate_of};
use crate::targets::MethodKey;
use crate::types::method_in;
use crate::{Context, Demand, Flow, Out, TableKey};
use mg_sets::StateSet;
use mg_text::{List, Memory, Place};
use std::alloc::Global;
use ts_tree::Target;
use use_elements::Sets;

impl<'a> Scene<'a> {
    // Appends the demands that no own field has a state.
    #[tactic(auto, using(crate::proofs::Scenes::scenes))]
    fn judge_fields(
        &self,
        alloc: Global,
        failed: &mut List<Demand>,
        place: Place,
        sets: &Sets,
    ) -> Result<(), Memory>
        ensures { OnOk result (failed.new.items ≡ failed.old.items ++ open_fields (seen self.now) place 0 (own_fields (seen self.now))
            sets.now) }
    {
        match self.own_class() {
            Some(class) => { self.judge_these(alloc, failed, place, class.fields.as_slice(), sets) }
            None => Ok(()),
        }
    }

    // Appends the set of the result, where the method gives objects.
    #[tactic(auto, using(crate::proofs::Scenes::scenes))]
    fn send_result(&self, outs: &mut List<Out>, set: StateSet) -> Result<(), Memory>
        ensures { OnOk result (outs_in outs.new.items ≡ outs_in outs.old.items ++ result_out (seen self.now) set) }
    {
        if class_in(self.method.result).is_none() {
            return Ok(());
        }
        let context = self.here()?;
        send(outs, TableKey::Result { context }, set)
    }

    // The fields go to where the target leads; where the object may be left there none may have a state
    // that isn't marked drop.
    #[tactic(auto, using(crate::proofs::Behind::led))]
    fn leave_target(
        &self,
        alloc: Global,
        log: &mut Flow,
        place: Place,
        class: u32,
        target: &Target,
        label: Option<&str>,
        sets: &Sets,
    ) -> Result<(), Memory>
        ensures { OnOk result (log_of log.new ≡ fields_left (seen self.now) class
            (which_of (option_map (λ l. l.now) label.entry) (target_of target.now)) place sets.now (log_of log.old)) }
    {
        self.send_target(alloc, &mut log.outs, class, target, label, sets)?;
        if !ends(typestate_of(self.core, class), target, label) {
            return Ok(());
        }
        self.judge_fields(alloc, &mut log.failed, place, sets)
    }

    // What a protocol method leaves of the fields, in a state.
    #[tactic(auto, using(crate::proofs::Behind::offers))]
    fn leave_state(
        &self,
        alloc: Global,
        log: &mut Flow,
        place: Place,
        class: u32,
        state: u32,
        label: Option<&str>,
        sets: &Sets,
    ) -> Result<(), Memory>
        ensures { OnOk result (log_of log.new ≡ fields_left (seen self.now) class
            (followed (seen self.now) class state (option_map (λ l. l.now) label.entry)) place sets.now (log_of log.old)) }
    {
        let call = MethodKey {
            class,
            name: self.method.name,
            number: method_in(self.context),
        };
        match self.target_of(call, state as usize) {
            Some(target) => self.leave_target(alloc, log, place, class, target, label, sets),
            None => Ok(()),
        }
    }

    // What a method leaves of its object's fields.
    fn leave_fields(
        &self,
        alloc: Global,
        log: &mut Flow,
        place: Place,
        label: Option<&str>,
        sets: &Sets,
    ) -> Result<(), Memory>
        ensures { OnOk result (log_of log.new ≡ leaves_fields (seen self.now) place (option_map (λ l. l.now) label.entry) sets.now
            (log_of log.old)) }
    {
        match self.context {
            Context::Protocol { class, state, .. } => {
                self.leave_state(alloc, log, place, class, state, label, sets)
            }
            Context::Plain { method } => {
                if !self.has_fields() {
                    return Ok(());
                }
                self.send_fields(alloc, &mut log.outs, FieldTable::Leave { method }, sets)
            }
        }
    }

    // The method is left at a place, with the set of a value. The variables in scope stand in the
    // order of their declarations.
    #[tactic(auto, using(crate::proofs::Behind::places))]
    pub(crate) fn leave_method(
        &self,
        alloc: Global,
        place: Place,
        label: Option<&str>,
        set: StateSet,
        scope: &[u32],
        now: Option<Sets>,
        log: &mut Flow,
    ) -> Result<(), Memory>
        ensures { OnOk result (log_of log.new ≡ left (seen self.now) place (option_map (λ l. l.now) label.entry) set (reverse scope.now) now
            (log_of log.old)) }
    {
        let Some(sets) = now else {
            return Ok(());
        };
        self.judge_left(alloc, &mut log.failed, place, scope, &sets)?;
        self.send_result(&mut log.outs, set)?;
        self.leave_fields(alloc, log, place, label, &sets)
    }
}
