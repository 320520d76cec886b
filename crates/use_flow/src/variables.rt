//! Variables of a method: what is asked of them, and what is read of them.
//! A variable that isn't there has no elements.

ghost use Rattle.std.specs.Prelude.{◌≡◌, ◌++◌, slice_set, slice_index_or, [], IfOk, OnOk};
ghost use Rattle.use_rules.specs.Elements.{image, as_value, left_behind};
ghost use Rattle.use_rules.specs.State.{asks};
ghost use Rattle.use_flow.specs.View.{log_of};
ghost use Rattle.use_flow.specs.inner.Followed.{seen, variable_at, variable_width, judged_variable};
ghost use Rattle.use_elements.specs.Mappings.{mapping_of};

use crate::scene::{Scene, typestate_of};
use crate::{Demand, Flow};
use jv_core::Var;
use mg_sets::StateSet;
use mg_text::{List, Memory, Place};
use std::alloc::Global;
use use_elements::{Mapping, Rule, Sets, empty_set, image, judge};

// Where the elements at a place lead, as a set of this width.
#[tactic(auto, using(crate::proofs::Scenes::scenes))]
fn image_at(
    alloc: Global,
    width: usize,
    mapping: Mapping,
    sets: &Sets,
    at: usize,
) -> Result<StateSet, Memory>
    ensures { IfOk result (λ s. s ≡ image width (mapping_of mapping) (slice_index_or sets.now at [])) }
{
    if at < sets.len() {
        return image(alloc, width, mapping, sets.get(at));
    }
    empty_set(alloc, width)
}

impl<'a> Scene<'a> {
    // Appends the demands on a variable.
    #[tactic(auto, using(crate::proofs::Scenes::scenes))]
    pub(crate) fn judge_variable(
        &self,
        alloc: Global,
        failed: &mut List<Demand>,
        rule: Rule,
        place: Place,
        variable: Var,
        sets: &Sets,
    ) -> Result<(), Memory>
        ensures { OnOk result (failed.new.items ≡ failed.old.items ++ judged_variable (seen self.now) rule place variable sets.now) }
    {
        let at = self.variable_at(variable);
        if at < sets.len() {
            let subject = self.subject(place, variable);
            judge(
                alloc,
                self.core.names(),
                failed,
                subject,
                rule,
                typestate_of(self.core, subject.class),
                sets.get(at),
            )?;
        }
        Ok(())
    }

    // The elements of a variable go where they lead.
    pub(crate) fn narrow(
        &self,
        alloc: Global,
        mapping: Mapping,
        variable: Var,
        sets: &mut Sets,
    ) -> Result<(), Memory>
        ensures { OnOk result (sets.new ≡ slice_set sets.old (variable_at (seen self.now) variable)
            (image (variable_width (seen self.now) variable) (mapping_of mapping)
            (slice_index_or sets.old (variable_at (seen self.now) variable) []))) }
    {
        let at = self.variable_at(variable);
        let set = image_at(alloc, self.variable_width(variable), mapping, sets, at)?;
        sets.put(at, set);
        Ok(())
    }

    // A variable is read as a value: what was moved is dropped, and what is read is moved.
    pub(crate) fn read(
        &self,
        alloc: Global,
        place: Place,
        variable: Var,
        sets: &mut Sets,
        log: &mut Flow,
    ) -> Result<StateSet, Memory>
        ensures value { IfOk result (λ s. s ≡ image (variable_width (seen self.now) variable) as_value
            (slice_index_or sets.old (variable_at (seen self.now) variable) [])) }
        ensures sets { OnOk result (sets.new ≡ slice_set sets.old (variable_at (seen self.now) variable)
            (image (variable_width (seen self.now) variable) left_behind
            (slice_index_or sets.old (variable_at (seen self.now) variable) []))) }
        ensures log { OnOk result (log_of log.new ≡ asks (judged_variable (seen self.now) (Rule.Moved) place variable sets.old)
            (log_of log.old)) }
    {
        self.judge_variable(alloc, &mut log.failed, Rule::Moved, place, variable, sets)?;
        let at = self.variable_at(variable);
        let width = self.variable_width(variable);
        let value = image_at(alloc, width, Mapping::AsValue, sets, at)?;
        self.narrow(alloc, Mapping::LeftBehind, variable, sets)?;
        Ok(value)
    }
}
