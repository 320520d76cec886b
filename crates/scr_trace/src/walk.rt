//! Walks along a local protocol, call by call.

ghost use Rattle.std.specs.Prelude.{◌≡◌, ◌≢◌, ◌↔◌, [], ◌∷◌, ◌++◌, IfOk, IfSome, OnOk, OnErr, IsTrue, Err};
ghost use Rattle.scr_tree.specs.Tree.{LocalTree};
ghost use Rattle.scr_tree.specs.Local.{tree_of};
ghost use Rattle.scr_tree.specs.Meaning.{protocol_of};
ghost use Rattle.scr_tree.specs.Steps.{Act, Position, start, Step, Finished};
ghost use Rattle.scr_tree.specs.CallNames.{call_of};
ghost use Rattle.scr_tree.specs.Traces.{Trace, Complete};

use crate::arrow::{Exits, Hop};
use crate::call::{Call, Offer};
use crate::laying::Laying;
use crate::offers::offers_of;
use crate::standing::Standing;
use crate::tables::{FEW, Tables, noted, tables_of};
use mg_text::{List, Memory};
use scr_tree::Local;
use std::alloc::Global;

/// A walk along a local protocol, which stands somewhere in it.
pub struct Walk<'a> {
    alloc: Global,
    local: &'a Local,
    laid: Laying<'a>,
    // Where the arrows of calls may stand.
    tables: Tables,
    standing: Standing,
}

// One call lets go of it, wherever a function ends.
impl Drop for Walk<'_> {
    fn drop(self) {
        let Walk {
            alloc: _,
            local: _,
            laid: _,
            tables: _,
            standing: _,
        } = self;
    }
}

/// Why a walk can't take a call. In both cases it stands where it stood.
#[derive(Clone, Copy, Debug)]
pub enum StepFault {
    /// No step of the protocol has the call.
    NotOffered,
    /// There is too little memory.
    Memory,
}

impl From<Memory> for StepFault {
    ghost use Rattle.scr_trace.specs.declared.walk.StepFault.TheVariants as faults;

    ghost from_gives = { λ _ e. e ≡ faults.Memory };

    fn from(_memory: Memory) -> StepFault {
        StepFault::Memory
    }
}

impl<'a> Walk<'a> {
    ghost use Rattle.scr_trace.specs.declared.walk.StepFault.TheVariants as faults;
    ghost use Rattle.scr_trace.specs.Walking.{Stands, StepsOn, HasTaken, Offered, Calls, call_said, calls_offered, methods_of};
    ghost use Rattle.scr_tree.specs.Valid.{AreDistinct};
    ghost use Rattle.scr_trace.specs.inner.Goes.{Goes};
    ghost use Rattle.scr_trace.specs.inner.Search.{HasArrow};
    ghost use Rattle.scr_trace.specs.inner.View.{work_of};

    /// A walk that stands at the start of a protocol, and has taken no calls.
    /// The only error is `Memory`, where there is too little of it.
    pub fn new(alloc: Global, local: &'a Local) -> Result<Walk<'a>, Memory>
        ensures stands { IfOk result (λ w. Stands (tree_of local.now) w (start (protocol_of (tree_of local.now)))) }
        ensures taken { IfOk result (λ w. HasTaken (tree_of local.now) w []) }
    {
        let laid = Laying::of(alloc, local)?;
        let tables = tables_of(alloc, &laid)?;
        let standing = laid.standing(laid.start());
        Ok(Walk {
            alloc,
            local,
            laid,
            tables,
            standing,
        })
    }

    /// Takes a step that has the call. The walk stands where the step leads.
    ///
    /// # Errors
    /// `NotOffered` exactly where no step of the protocol from where the walk stands has the call,
    /// and `Memory` where there is too little of it. The walk is then unchanged.
    pub fn step(&mut self, call: &Call<'_>) -> Result<(), StepFault>
        ensures steps { OnOk result ((tree : LocalTree) (position : Position) → Stands tree self.old position →
            StepsOn tree position (call_said call.now) self.new) }
        ensures not_offered { result ≡ Err faults.NotOffered → (tree : LocalTree) (position : Position) → Stands tree self.old position →
            (act : Act) (to : Position) → Step (protocol_of tree) position act to → call_of tree.me act ≢ call_said call.now }
        ensures unchanged { OnErr result (self.new ≡ self.old) }
        // the calls that were taken are a trace, and one that isn't offered ends every trace
        ensures taken { OnOk result ((tree : LocalTree) (calls : Calls) → HasTaken tree self.old calls →
            HasTaken tree self.new (calls ++ call_said call.now ∷ [])) }
        ensures no_trace { result ≡ Err faults.NotOffered → (tree : LocalTree) (calls more : Calls) → HasTaken tree self.old calls →
            Trace tree.me (protocol_of tree) (calls ++ call_said call.now ∷ more) → ⊥ }
    {
        match self.led(call)? {
            Some(standing) => {
                self.standing = standing;
                Ok(())
            }
            None => Err(StepFault::NotOffered),
        }
    }

    /// The calls of all steps from where the walk stands, in the order of the text. No two offers
    /// have one method.
    /// The only error is `Memory`, where there is too little of it.
    pub fn offers(&self) -> Result<List<Offer>, Memory>
        ensures calls { IfOk result (λ offers. (tree : LocalTree) (position : Position) → Stands tree self.now position →
            Offered tree position (calls_offered offers.items)) }
        ensures distinct { IfOk result (λ offers. (tree : LocalTree) (position : Position) → Stands tree self.now position →
            AreDistinct (methods_of offers.items)) }
    {
        let Standing::State(number) = self.standing else {
            return Ok(List::new(self.alloc));
        };
        let Some(exits) = self.laid.exits_of(number) else {
            return Ok(List::new(self.alloc));
        };
        offers_of(self.alloc, self.local, &self.laid, exits)
    }

    /// Whether nothing is left to do.
    pub fn done(&self) -> bool
        ensures finished { (tree : LocalTree) (position : Position) → Stands tree self.now position →
            IsTrue result ↔ Finished (protocol_of tree) position }
        ensures complete { (tree : LocalTree) (calls : Calls) → HasTaken tree self.now calls →
            IsTrue result ↔ Complete tree.me (protocol_of tree) calls }
    {
        match self.standing {
            Standing::End => true,
            Standing::State(_) => false,
        }
    }

    // Where a call leads, if it is offered.
    fn led(&self, call: &Call<'_>) -> Result<Option<Standing>, Memory>
        ensures { IfOk result (λ to. Goes self.now (call_said call.now) to) }
    {
        let Standing::State(number) = self.standing else {
            return Ok(None);
        };
        let Some(exits) = self.laid.exits_of(number) else {
            return Ok(None);
        };
        if let Some(hop) = self.led_at_once(number, exits, call)? {
            return Ok(Some(self.laid.standing(hop)));
        }
        let me = self.local.me().as_str();
        match self.laid.led(self.alloc, me, exits, call)? {
            Some(hop) => Ok(Some(self.laid.standing(hop))),
            None => Ok(None),
        }
    }

    // Where a call leads by the arrow that the table tells, if that is one of the call.
    fn led_at_once(
        &self,
        number: u32,
        exits: &Exits<'_>,
        call: &Call<'_>,
    ) -> Result<Option<Hop>, Memory>
        ensures { IfOk result (λ hop. IfSome hop (λ h. HasArrow (tree_of self.now.local.now).me (work_of self.now.laid)
            exits.now.number exits.now.arrows.items (call_said call.now) h)) }
    {
        let arrows = exits.arrows.as_slice();
        if arrows.len() <= FEW {
            return Ok(None);
        }
        let text = match call.answer {
            None => call.method,
            Some(label) => label,
        };
        let Some(place) = noted(&self.tables, number, text) else {
            return Ok(None);
        };
        let Some(arrow) = arrows.get(place) else {
            return Ok(None);
        };
        let me = self.local.me().as_str();
        if self
            .laid
            .has_call(self.alloc, me, exits.number, arrow, call)?
        {
            return Ok(Some(arrow.to));
        }
        Ok(None)
    }
}
