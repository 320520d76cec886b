//! Where scopes end and methods are left.
//! No variable that is left may have a state that isn't marked drop, and fields flow to the tables of what comes next.

ghost use Rattle.std.specs.Prelude.{◌≡◌, ◌++◌, ◌∷◌, [], map, option_map, OnOk};
ghost use Rattle.std.specs.List.{list_any};
ghost use Rattle.jv_core.specs.View.{field_of};
ghost use Rattle.ts_tree.specs.View.{target_of};
ghost use Rattle.ts_tree.specs.Calls.{may_end};
ghost use Rattle.use_flow.specs.inner.Calling.{which_of};
ghost use Rattle.use_flow.specs.inner.Fields.{outs_in};
ghost use Rattle.use_flow.specs.inner.Followed.{seen, left_open, without, to_states, open_fields};
ghost use Rattle.use_elements.specs.Mappings.{typestate_or_end};

use crate::calling::by_label;
use crate::fields::{FieldTable, number};
use crate::scene::Scene;
use crate::{Demand, Out};
use jv_core::{CoreField, Var};
use mg_text::{List, Memory, Place};
use std::alloc::Global;
use ts_tree::{Branch, Target, To, Typestate};
use use_elements::{Rule, Sets, drops_at, empty_set};

// Whether an object may be left at a place of its typestate.
fn may_end(typestate: Option<&Typestate>, to: To) -> bool
    ensures { result ≡ may_end (typestate_or_end (option_map (λ t. t.now) typestate.entry)) to }
{
    match to {
        To::State(state) => drops_at(typestate, state as usize),
        To::End => true,
    }
}

// Whether a branch leads to where it may be left.
#[tactic(auto, using(crate::proofs::Leaving::ends))]
fn branch_ends(typestate: Option<&Typestate>, branches: &[Branch]) -> bool
    ensures { result ≡ list_any (may_end (typestate_or_end (option_map (λ t. t.now) typestate.entry))) (map (λ b. b.to) branches.now) }
{
    for branch in branches {
        if may_end(typestate, branch.to) {
            return true;
        }
    }
    false
}

// Whether calls lead to where the object may be left.
#[tactic(auto, using(crate::proofs::Leaving::ends))]
pub(crate) fn ends(typestate: Option<&Typestate>, target: &Target, label: Option<&str>) -> bool
    ensures { result ≡ list_any (may_end (typestate_or_end (option_map (λ t. t.now) typestate.entry)))
        (which_of (option_map (λ l. l.now) label.entry) (target_of target.now)) }
{
    match target {
        Target::One(to) => may_end(typestate, *to),
        Target::ByAnswer(branches) => {
            let Some(label) = label else {
                return branch_ends(typestate, branches.as_slice());
            };
            match by_label(branches.as_slice(), label) {
                Some(to) => may_end(typestate, to),
                None => false,
            }
        }
    }
}

impl<'a> Scene<'a> {
    // Appends the demands that no variable that is left has a state that isn't marked drop.
    #[tactic(auto, using(crate::proofs::Leaving::slots))]
    pub(crate) fn judge_left(
        &self,
        alloc: Global,
        failed: &mut List<Demand>,
        place: Place,
        slots: &[u32],
        sets: &Sets,
    ) -> Result<(), Memory>
        ensures { OnOk result (failed.new.items ≡ failed.old.items ++ left_open (seen self.now) place slots.now sets.now) }
    {
        for slot in slots {
            self.judge_variable(alloc, failed, Rule::LeftOpen, place, Var::Slot(*slot), sets)?;
        }
        Ok(())
    }

    // Variables that are left have no elements.
    #[tactic(auto, using(crate::proofs::Leaving::emptied))]
    pub(crate) fn leave(&self, alloc: Global, slots: &[u32], sets: &mut Sets) -> Result<(), Memory>
        ensures { OnOk result (sets.new ≡ without (seen self.now) slots.now sets.old) }
    {
        for slot in slots {
            let set = empty_set(alloc, 0)?;
            sets.put(*slot as usize, set);
        }
        Ok(())
    }

    // Appends the demands that none of these fields has a state that isn't marked drop.
    #[tactic(auto, using(crate::proofs::Leaving::opened))]
    pub(crate) fn judge_these(
        &self,
        alloc: Global,
        failed: &mut List<Demand>,
        place: Place,
        fields: &[CoreField],
        sets: &Sets,
    ) -> Result<(), Memory>
        ensures { OnOk result (failed.new.items ≡ failed.old.items ++ open_fields (seen self.now) place 0 (map field_of fields.now)
            sets.now) }
    {
        for field in 0..fields.len() {
            let at = number(field)?;
            let variable = Var::Field(at);
            self.judge_variable(alloc, failed, Rule::FieldOpenAtEnd, place, variable, sets)?;
        }
        Ok(())
    }

    // Appends what flows of the fields to a state that follows.
    fn send_to(
        &self,
        alloc: Global,
        outs: &mut List<Out>,
        class: u32,
        to: To,
        sets: &Sets,
    ) -> Result<(), Memory>
        ensures { OnOk result (outs_in outs.new.items ≡ outs_in outs.old.items ++ to_states (seen self.now) class (to ∷ []) sets.now) }
    {
        match to {
            To::State(state) => {
                self.send_fields(alloc, outs, FieldTable::State { class, state }, sets)
            }
            To::End => Ok(()),
        }
    }

    // Appends what flows of the fields to the states to which answers lead.
    #[tactic(auto, using(crate::proofs::Leaving::states))]
    fn send_branches(
        &self,
        alloc: Global,
        outs: &mut List<Out>,
        class: u32,
        branches: &[Branch],
        sets: &Sets,
    ) -> Result<(), Memory>
        ensures { OnOk result (outs_in outs.new.items ≡ outs_in outs.old.items ++ to_states (seen self.now) class
            (map (λ b. b.to) branches.now) sets.now) }
    {
        for branch in branches {
            self.send_to(alloc, outs, class, branch.to, sets)?;
        }
        Ok(())
    }

    // Appends what flows of the fields to the states that follow.
    pub(crate) fn send_target(
        &self,
        alloc: Global,
        outs: &mut List<Out>,
        class: u32,
        target: &Target,
        label: Option<&str>,
        sets: &Sets,
    ) -> Result<(), Memory>
        ensures { OnOk result (outs_in outs.new.items ≡ outs_in outs.old.items ++ to_states (seen self.now) class
            (which_of (option_map (λ l. l.now) label.entry) (target_of target.now)) sets.now) }
    {
        match target {
            Target::One(to) => self.send_to(alloc, outs, class, *to, sets),
            Target::ByAnswer(branches) => {
                let Some(label) = label else {
                    return self.send_branches(alloc, outs, class, branches.as_slice(), sets);
                };
                match by_label(branches.as_slice(), label) {
                    Some(to) => self.send_to(alloc, outs, class, to, sets),
                    None => Ok(()),
                }
            }
        }
    }
}
