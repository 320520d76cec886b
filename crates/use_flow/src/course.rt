//! What is carried along a method: the variables in scope, what has jumped, and what was met.
//! Jumps end scopes before they are kept.

ghost use Rattle.std.specs.Prelude.{◌≡◌, ◌≤◌, List, length, drop, take, reverse, nat_eq, IfOk, OnOk};
ghost use Rattle.std.specs.List.{list_any};
ghost use Rattle.use_rules.specs.Elements.{marked, none};
ghost use Rattle.use_rules.specs.State.{Jump, leaving};
ghost use Rattle.use_rules.specs.Flow.{flow};
ghost use Rattle.use_flow.specs.View.{log_of};
ghost use Rattle.use_flow.specs.inner.Followed.{seen, loop_scope};
ghost use Rattle.use_flow.specs.inner.Jumping.{lead_of};
ghost use Rattle.use_flow.specs.inner.Simple.{exit};
ghost use Rattle.use_flow.specs.inner.Stepping.{Follows, scope_of, jump_flow};

use crate::Flow;
use crate::jumps::{Jumps, Lead};
use crate::scene::Scene;
use mg_sets::StateSet;
use mg_text::{Memory, Place};
use std::alloc::Global;
use use_elements::{Sets, empty_set, mark};

/// The slots in scope, in the order of their declarations, what has jumped, and what was met.
#[derive(Drop)]
pub(crate) struct Course {
    pub scope: Vec<u32>,
    pub jumps: Jumps,
    pub log: Flow,
}

// The slots that stay, as a set of this width.
#[tactic(auto, using(crate::proofs::Coursing::stays))]
fn staying(alloc: Global, width: usize, stays: &[u32]) -> Result<StateSet, Memory>
    ensures { IfOk result (λ s. s ≡ marked stays.now (none (length s))) }
{
    let mut set = empty_set(alloc, width)?;
    for slot in stays {
        mark(&mut set, *slot as usize);
    }
    Ok(set)
}

// Whether a slot stays. One that the set has no room for is searched.
#[tactic(auto, using(crate::proofs::Coursing::members))]
fn is_staying(set: &StateSet, stays: &[u32], slot: u32) -> bool
    requires { set.now ≡ marked stays.now (none (length set.now)) }
    ensures { result ≡ list_any (nat_eq slot) stays.now }
{
    if (slot as usize) < set.width() {
        return set.has(slot as usize);
    }
    stays.contains(&slot)
}

// The slots of a scope that aren't among those that stay.
fn leaving(alloc: Global, width: usize, scope: &[u32], stays: &[u32]) -> Result<Vec<u32>, Memory>
    ensures { IfOk result (λ v. v.items ≡ leaving (reverse scope.now) stays.now) }
{
    let kept = staying(alloc, width, stays)?;
    let mut left = Vec::new(alloc);
    for slot in scope {
        if is_staying(&kept, stays, *slot) {
            continue;
        }
        left.push(*slot)?;
    }
    Ok(left)
}

impl<'a> Scene<'a> {
    // A jump, before which the slots that are in scope here and not there are left.
    #[tactic(auto, using(crate::proofs::Coursing::jumps))]
    pub(crate) fn jump(
        &self,
        alloc: Global,
        place: Place,
        lead: Lead,
        stays: &[u32],
        sets: Sets,
        course: &mut Course,
    ) -> Result<Option<Sets>, Memory>
        ensures { IfOk result (λ n. Follows (jump_flow (seen self.now) place (lead_of lead) (scope_of course.old) stays.now sets
            (log_of course.old.log)) course.old.scope.items course.old.jumps n course.new) }
    {
        let width = self.method.slots.len();
        let left = leaving(alloc, width, course.scope.as_slice(), stays)?;
        let now = self.exit(alloc, place, left.as_slice(), Some(sets), &mut course.log)?;
        course.jumps.add(lead, now)?;
        Ok(None)
    }

    // Where a scope ends: the slots behind this depth are left.
    pub(crate) fn end_scope(
        &self,
        alloc: Global,
        place: Place,
        depth: usize,
        now: Option<Sets>,
        course: &mut Course,
    ) -> Result<Option<Sets>, Memory>
        requires { depth ≤ length course.old.scope.items }
        ensures flows { (js : List Jump) →
            IfOk result (λ n. flow n js (log_of course.new.log) ≡ exit (seen self.now) place (drop depth course.old.scope.items)
            (flow now js (log_of course.old.log))) }
        ensures scope { OnOk result (course.new.scope.items ≡ take depth course.old.scope.items) }
        ensures jumps { OnOk result (course.new.jumps ≡ course.old.jumps) }
    {
        let left = &course.scope[depth..];
        let now = self.exit(alloc, place, left, now, &mut course.log)?;
        course.scope.truncate(depth);
        Ok(now)
    }

    // A jump to a loop, whose scope stays.
    pub(crate) fn jump_loop(
        &self,
        alloc: Global,
        place: Place,
        lead: Lead,
        number: u32,
        sets: Sets,
        course: &mut Course,
    ) -> Result<Option<Sets>, Memory>
        ensures { IfOk result (λ n. Follows
            (jump_flow (seen self.now) place (lead_of lead) (scope_of course.old) (loop_scope (seen self.now) number) sets
            (log_of course.old.log)) course.old.scope.items course.old.jumps n course.new) }
    {
        self.jump(alloc, place, lead, self.loop_scope(number), sets, course)
    }
}
