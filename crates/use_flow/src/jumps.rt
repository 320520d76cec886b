//! What jumps out of what is followed, by where it leads.
//! What jumps to one place is joined as it comes.

ghost use Rattle.std.specs.Prelude.{◌≡◌, ◌≤◌, ℕ, None, length, slice_index_or, if◌then◌else◌, ◌||◌, OnOk};
ghost use Rattle.use_rules.specs.State.{Leads, BehindLoop, GoesOn, same_lead, joined};
ghost use Rattle.use_flow.specs.inner.Jumping.{HasRoom, held, lead_of, put_now};

use mg_text::Memory;
use std::alloc::Global;
use use_elements::{Sets, meet};

/// Where a jump leads: behind the innermost switch, behind a loop, or to where a loop goes on.
#[derive(Clone, Copy)]
pub(crate) enum Lead {
    BehindSwitch,
    BehindLoop(u32),
    GoesOn(u32),
}

/// What jumps to each place, by the numbers of the loops.
#[derive(Drop)]
pub(crate) struct Jumps {
    behind_switch: Option<Sets>,
    behind_loops: Vec<Option<Sets>>,
    going_on: Vec<Option<Sets>>,
}

/// What has jumped to one loop: behind it, and to where it goes on.
#[derive(Drop)]
pub(crate) struct Aside {
    pub behind: Option<Sets>,
    pub going_on: Option<Sets>,
}

// What stands at a place, which has nothing from then on.
#[tactic(auto, using(crate::proofs::Jumping::places))]
fn take_at(nows: &mut Vec<Option<Sets>>, at: usize) -> Option<Sets>
    ensures was { result ≡ slice_index_or nows.old.items at None }
    ensures left { (l : ℕ) → slice_index_or nows.new.items l None ≡ put_now at None l (slice_index_or nows.old.items l None) }
{
    if at < nows.len() {
        return nows[at].take();
    }
    None
}

// Makes room up to a place.
#[tactic(auto, using(crate::proofs::Jumping::rooms))]
fn make_room(nows: &mut Vec<Option<Sets>>, at: usize) -> Result<(), Memory>
    requires { length nows.old.items ≤ at }
    ensures { OnOk result (HasRoom nows.new.items nows.old.items at at) }
{
    for _place in nows.len()..at {
        nows.push(None)?;
    }
    Ok(())
}

// Gives a place something, with room for it.
#[tactic(auto, using(crate::proofs::Jumping::places))]
fn put_at(nows: &mut Vec<Option<Sets>>, at: usize, now: Option<Sets>) -> Result<(), Memory>
    ensures { OnOk result ((l : ℕ) → slice_index_or nows.new.items l None ≡ put_now at now l (slice_index_or nows.old.items l None)) }
{
    if at < nows.len() {
        nows[at] = now;
        return Ok(());
    }
    make_room(nows, at)?;
    nows.push(now)?;
    Ok(())
}

impl Jumps {
    // Nothing jumps.
    pub(crate) fn new(alloc: Global) -> Jumps
        ensures { (to : Leads) → held result to ≡ None }
    {
        Jumps {
            behind_switch: None,
            behind_loops: Vec::new(alloc),
            going_on: Vec::new(alloc),
        }
    }

    // What jumps to a place, which is forgotten.
    pub(crate) fn take(&mut self, lead: Lead) -> Option<Sets>
        ensures was { result ≡ held self.old (lead_of lead) }
        ensures left { (to : Leads) → held self.new to ≡ (if same_lead (lead_of lead) to then None else held self.old to) }
    {
        match lead {
            Lead::BehindSwitch => self.behind_switch.take(),
            Lead::BehindLoop(number) => take_at(&mut self.behind_loops, number as usize),
            Lead::GoesOn(number) => take_at(&mut self.going_on, number as usize),
        }
    }

    // What jumps to a place is this alone.
    pub(crate) fn put(&mut self, lead: Lead, now: Option<Sets>) -> Result<(), Memory>
        ensures { OnOk result ((to : Leads) → held self.new to ≡ (if same_lead (lead_of lead) to then now else held self.old to)) }
    {
        match lead {
            Lead::BehindSwitch => {
                self.behind_switch = now;
                Ok(())
            }
            Lead::BehindLoop(number) => put_at(&mut self.behind_loops, number as usize, now),
            Lead::GoesOn(number) => put_at(&mut self.going_on, number as usize, now),
        }
    }

    // Something more jumps to a place.
    pub(crate) fn add(&mut self, lead: Lead, now: Option<Sets>) -> Result<(), Memory>
        ensures { OnOk result ((to : Leads) →
            held self.new to ≡ (if same_lead (lead_of lead) to then joined (held self.old to) now else held self.old to)) }
    {
        let before = self.take(lead);
        let now = meet(before, now)?;
        self.put(lead, now)
    }

    // What jumps to a loop, which is forgotten.
    pub(crate) fn set_aside(&mut self, number: u32) -> Aside
        ensures behind { result.behind ≡ held self.old (BehindLoop number) }
        ensures going_on { result.going_on ≡ held self.old (GoesOn number) }
        ensures left { (to : Leads) → held self.new to
            ≡ (if same_lead (BehindLoop number) to || same_lead (GoesOn number) to then None else held self.old to) }
    {
        let behind = self.take(Lead::BehindLoop(number));
        let going_on = self.take(Lead::GoesOn(number));
        Aside { behind, going_on }
    }

    // What jumps to a loop is this alone.
    pub(crate) fn put_back(&mut self, number: u32, aside: Aside) -> Result<(), Memory>
        ensures { OnOk result ((to : Leads) →
            held self.new to ≡ (if same_lead (BehindLoop number) to then aside.behind else
            (if same_lead (GoesOn number) to then aside.going_on else held self.old to))) }
    {
        let Aside { behind, going_on } = aside;
        self.put(Lead::GoesOn(number), going_on)?;
        self.put(Lead::BehindLoop(number), behind)
    }
}
