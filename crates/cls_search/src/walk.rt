//! A walk: from a place at which kinds are kept, along the instructions, to where ways join or end.

ghost use Rattle.std.specs.Prelude.{◌≡◌, ◌<◌, ℕ, length, get_or, true, IfOk};
ghost use Rattle.vm_model.specs.Actions.{Action as Acts};
ghost use Rattle.cls_rows.specs.Frames.{kinds_at};
ghost use Rattle.cls_search.specs.Setting.{Setting};
ghost use Rattle.cls_search.specs.Walking.{StandsAt, LeavesOn, WalksFrom, StrideIs, WaysAre, WalkIs};

use crate::joins::{Jumps, ways_of};
use crate::leading::Found;
use cls_rows::{Frame, Scene, row};
use mg_text::Memory;
use std::alloc::Global;
use vm_actions::action_of;
use vm_model::LinkedInstr;

/// A method's code, and what its instructions are judged by.
#[derive(Clone, Copy)]
pub(crate) struct Body<'a> {
    pub(crate) scene: Scene<'a>,
    pub(crate) code: &'a [LinkedInstr],
    /// By places: whether ways may join there.
    pub(crate) joins: &'a [bool],
}

/// What a step of a walk comes to.
pub(crate) enum Stride {
    /// A row isn't met, or what leads to a place doesn't suit it.
    Fails,
    /// No way goes on behind the instruction, or what is kept behind it was raised.
    Ends,
    On(Frame),
}

/// Whether ways may join at a place.
fn is_join(joins: &[bool], place: usize) -> bool
    ensures { result ≡ get_or joins.now place true }
{
    match joins.get(place) {
        Some(mark) => *mark,
        None => true,
    }
}

impl Found {
    /// Follows one instruction.
    fn step(
        &mut self,
        alloc: Global,
        body: Body<'_>,
        place: usize,
        frame: Frame,
    ) -> Result<Stride, Memory>
        requires { (s : Setting) × StandsAt s self.old body place frame }
        ensures { IfOk result (λ r. (s : Setting) → StandsAt s self.old body.entry place frame →
            StrideIs s self.old self.new place (kinds_at s.names s.rest self.old.stacks frame) r) }
    {
        let Some(instr) = body.code.get(place) else {
            return Ok(Stride::Fails);
        };
        let Some(action) = action_of(instr) else {
            return Ok(Stride::Fails);
        };
        let slot = place.saturating_mul(2);
        let met = row(alloc, body.scene, &mut self.stacks, frame, action, slot)?;
        let Some(left) = met else {
            return Ok(Stride::Fails);
        };
        self.go_on(alloc, body, place, ways_of(action), left)
    }

    /// Leads to where an instruction jumps, and goes on behind it.
    fn go_on(
        &mut self,
        alloc: Global,
        body: Body<'_>,
        place: usize,
        jumps: Jumps<'_>,
        left: Frame,
    ) -> Result<Stride, Memory>
        requires within { place < length body.code.now }
        requires leaves { (s : Setting) × ((a : Acts) × LeavesOn s self.old body place a jumps left) }
        ensures { IfOk result (λ r. (s : Setting) (a : Acts) → LeavesOn s self.old body.entry place a jumps.entry left →
            WaysAre s self.old self.new place (kinds_at s.names s.rest self.old.stacks left) a r) }
    {
        let are_led = self.lead_on(alloc, jumps, &left)?;
        if !are_led {
            return Ok(Stride::Fails);
        }
        if !jumps.falls {
            return Ok(Stride::Ends);
        }
        let next = place + 1;
        if !is_join(body.joins, next) {
            return Ok(Stride::On(left));
        }
        let is_led = self.lead(alloc, next, &left)?;
        if !is_led {
            return Ok(Stride::Fails);
        }
        Ok(Stride::Ends)
    }

    /// Walks from a place. False comes exactly where the walk shows that there is no typing.
    pub(crate) fn walk(
        &mut self,
        alloc: Global,
        body: Body<'_>,
        from: usize,
    ) -> Result<bool, Memory>
        requires { (s : Setting) × WalksFrom s self.old body from }
        ensures { IfOk result (λ b. (s : Setting) → WalksFrom s self.old body.entry from → WalkIs s self.old self.new b) }
    {
        let kept = self.kept(from)?;
        let Some(first) = kept else {
            return Ok(true);
        };
        let mut frame = first;
        'steps: for place in from..body.code.len() {
            let stride = self.step(alloc, body, place, frame)?;
            match stride {
                Stride::Fails => return Ok(false),
                Stride::Ends => return Ok(true),
                Stride::On(left) => frame = left,
            }
        }
        Ok(false)
    }
}
