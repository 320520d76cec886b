//! What is kept at places, raised by what leads there.

ghost use Rattle.std.specs.Prelude.{◌≡◌, ◌<◌, ◌++◌, ℕ, length, Some, IfOk, OnOk, MatchOption, slice_set, option_to_list, true, false};
ghost use Rattle.cls_kinds.specs.Numbers.{is_raised, joined_all};
ghost use Rattle.cls_kinds.specs.Stacks.{stack_at, Grows};
ghost use Rattle.cls_rows.specs.Frames.{kinds_at};
ghost use Rattle.cls_rows.specs.Same.{SameOr};
ghost use Rattle.cls_search.specs.Setting.{Setting};
ghost use Rattle.cls_search.specs.Kept.{frame_at};
ghost use Rattle.cls_search.specs.Going.{LeadsOr, LeadsAllOr};
ghost use Rattle.cls_search.specs.Led.{LedTo, LedOver, LedToAll, Stays, RaisesTo};

use crate::joins::Jumps;
use crate::waiting::Waiting;
use cls_kinds::{Kind, Stacks, join_rows, raises_row};
use cls_rows::Frame;
use mg_text::Memory;
use std::alloc::Global;
use std::rc::Rc;

/// What is kept at places, which of them wait to be followed, and all lists of operands.
#[derive(Drop)]
pub(crate) struct Found {
    pub(crate) frames: Vec<Option<Frame>>,
    pub(crate) waiting: Waiting,
    pub(crate) stacks: Stacks,
}

/// The least locals that two rows fit, where these aren't the old ones. Where they are the new
/// ones these are shared.
fn join_locals(
    alloc: Global,
    old: &Rc<Vec<Kind>>,
    new: &Rc<Vec<Kind>>,
) -> Result<Option<Rc<Vec<Kind>>>, Memory>
    requires { length old.now.value.items ≡ length new.now.value.items }
    ensures { IfOk result (λ o. MatchOption o (is_raised old.now.value.items new.now.value.items ≡ false)
        (λ row. (is_raised old.now.value.items new.now.value.items ≡ true)
        × (row.value.items ≡ joined_all old.now.value.items new.now.value.items))) }
{
    let kept = old.as_ref().as_slice();
    let led = new.as_ref().as_slice();
    if !raises_row(kept, led) {
        return Ok(None);
    }
    if !raises_row(led, kept) {
        let row = new.clone()?;
        return Ok(Some(row));
    }
    let row = join_rows(alloc, kept, led)?;
    let row = Rc::new(alloc, row)?;
    Ok(Some(row))
}

/// The least frame that two of as many operands fit, where it isn't the old one.
fn join_frames(
    alloc: Global,
    stacks: &mut Stacks,
    old: Frame,
    new: &Frame,
) -> Result<Option<Frame>, Memory>
    requires width { length old.locals.value.items ≡ length new.now.locals.value.items }
    requires first { old.operands < length stacks.old }
    requires second { new.now.operands < length stacks.old }
    requires even { length (stack_at stacks.old old.operands) ≡ length (stack_at stacks.old new.now.operands) }
    ensures grows { OnOk result (Grows stacks.old stacks.new) }
    ensures joined { IfOk result (λ o. MatchOption o (Stays stacks.old old new.now) (λ g. RaisesTo stacks.old stacks.new old new.now g)) }
{
    let row = join_locals(alloc, &old.locals, &new.locals)?;
    let operands = stacks.join(alloc, old.operands, new.operands)?;
    if let Some(locals) = row {
        return Ok(Some(Frame { locals, operands }));
    }
    if operands == old.operands {
        return Ok(None);
    }
    let locals = old.locals;
    Ok(Some(Frame { locals, operands }))
}

impl Found {
    /// What is kept at a place.
    pub(crate) fn kept(&self, place: usize) -> Result<Option<Frame>, Memory>
        ensures { IfOk result (λ o. SameOr (frame_at self.now place) o) }
    {
        let Some(kept) = self.frames.get(place) else {
            return Ok(None);
        };
        let Some(frame) = kept else {
            return Ok(None);
        };
        let frame = frame.copy()?;
        Ok(Some(frame))
    }

    /// Keeps a frame at a place, which then waits.
    pub(crate) fn keep(&mut self, place: usize, frame: Frame) -> Result<(), Memory>
        requires { place < length self.old.frames.items }
        ensures frames { OnOk result (self.new.frames.items ≡ slice_set self.old.frames.items place (Some frame)) }
        ensures waiting { OnOk result (self.new.waiting ≡ slice_set self.old.waiting place true) }
        ensures stacks { OnOk result (self.new.stacks ≡ self.old.stacks) }
    {
        self.waiting.wake(place)?;
        self.frames[place] = Some(frame);
        Ok(())
    }

    /// Raises what is kept at a place by what leads there, and then lets it wait. False comes exactly
    /// where another number of operands stands there, or it is the first place and would be raised.
    fn raise(
        &mut self,
        alloc: Global,
        place: usize,
        old: Frame,
        left: &Frame,
    ) -> Result<bool, Memory>
        requires { (s : Setting) × LedOver s self.old old left.now place }
        ensures { IfOk result (λ b. (s : Setting) → LedOver s self.old old left.now place →
            LeadsOr s self.old self.new (kinds_at s.names s.rest self.old.stacks left.now) place b) }
    {
        if self.stacks.depth(old.operands) != self.stacks.depth(left.operands) {
            return Ok(false);
        }
        let joined = join_frames(alloc, &mut self.stacks, old, left)?;
        let Some(frame) = joined else {
            return Ok(true);
        };
        if place == 0 {
            return Ok(false);
        }
        self.keep(place, frame)?;
        Ok(true)
    }

    /// What leads to a place raises what is kept there.
    pub(crate) fn lead(&mut self, alloc: Global, place: usize, left: &Frame) -> Result<bool, Memory>
        requires { (s : Setting) × LedTo s self.old left.now place }
        ensures { IfOk result (λ b. (s : Setting) → LedTo s self.old left.now place →
            LeadsOr s self.old self.new (kinds_at s.names s.rest self.old.stacks left.now) place b) }
    {
        if place >= self.frames.len() {
            return Ok(false);
        }
        let kept = self.kept(place)?;
        if let Some(old) = kept {
            return self.raise(alloc, place, old, left);
        }
        let frame = left.copy()?;
        self.keep(place, frame)?;
        Ok(true)
    }

    /// What leads to each of these places raises what is kept there.
    fn lead_all(&mut self, alloc: Global, places: &[u32], left: &Frame) -> Result<bool, Memory>
        requires { (s : Setting) × LedToAll s self.old left.now places.now }
        ensures { IfOk result (λ b. (s : Setting) → LedToAll s self.old left.now places.now →
            LeadsAllOr s self.old self.new (kinds_at s.names s.rest self.old.stacks left.now) places.now b) }
    {
        for place in places {
            let is_led = self.lead(alloc, *place as usize, left)?;
            if !is_led {
                return Ok(false);
            }
        }
        Ok(true)
    }

    /// What leads to where an instruction jumps raises what is kept there.
    pub(crate) fn lead_on(
        &mut self,
        alloc: Global,
        jumps: Jumps<'_>,
        left: &Frame,
    ) -> Result<bool, Memory>
        requires { (s : Setting) × LedToAll s self.old left.now (option_to_list jumps.target ++ jumps.further.now) }
        ensures { IfOk result (λ b. (s : Setting) →
            LedToAll s self.old left.now (option_to_list jumps.entry.target ++ jumps.entry.further.now) →
            LeadsAllOr s self.old self.new (kinds_at s.names s.rest self.old.stacks left.now)
            (option_to_list jumps.entry.target ++ jumps.entry.further.now) b) }
    {
        let Some(target) = jumps.target else {
            return self.lead_all(alloc, jumps.further, left);
        };
        let is_led = self.lead(alloc, target as usize, left)?;
        if !is_led {
            return Ok(false);
        }
        self.lead_all(alloc, jumps.further, left)
    }
}
