//! Finds the arrow of a call among those of a state.

ghost use Rattle.std.specs.Prelude.{◌≡◌, ◌&&◌, ℕ, IfOk, option_map, slice_get};
ghost use Rattle.std.specs.Fmt.{decimal};
ghost use Rattle.scr_trace.specs.Walking.{call_said};
ghost use Rattle.scr_trace.specs.inner.Search.{first_led, is_said, is_looked, is_called, led_if};
ghost use Rattle.scr_trace.specs.inner.View.{cell_of, plain_standing, standing_of, work_of};

use crate::arrow::{Arrow, Exits, Hop};
use crate::call::Call;
use crate::laying::Laying;
use crate::names::{is_label_call, is_message_call};
use crate::standing::Standing;
use mg_text::Memory;
use std::alloc::Global;

// Where the message of this method leads.
#[tactic(auto, using(crate::proofs::Searching::steps))]
fn find_message(method: &str, arrows: &[Arrow<'_>]) -> Option<Hop>
    ensures { result ≡ first_led (is_said method.now) arrows.now }
{
    for arrow in arrows {
        if is_message_call(method, arrow.message) {
            return Some(arrow.to);
        }
    }
    None
}

// Where the look of this method leads that answers with the label.
#[tactic(auto, using(crate::proofs::Searching::look_steps))]
fn find_look(me: &str, digits: &str, method: &str, label: &str, arrows: &[Arrow<'_>]) -> Option<Hop>
    ensures { (n : ℕ) → digits.now ≡ decimal n → result ≡ first_led (is_looked me.now n method.now label.now) arrows.now }
{
    for arrow in arrows {
        let message = arrow.message;
        if message.label.as_str() == label
            && is_label_call(method, me, digits, message.peer.as_str())
        {
            return Some(arrow.to);
        }
    }
    None
}

impl<'a> Laying<'a> {
    /// What the state of this number offers, if there is one.
    #[tactic(auto, using(crate::proofs::Searching::reads))]
    pub fn exits_of(&self, number: u32) -> Option<&Exits<'a>>
        ensures { option_map (λ e. cell_of e.now) result ≡ slice_get (work_of self.now).cells number }
    {
        let exits = self.exits.as_slice();
        let number = number as usize;
        if number < exits.len() {
            Some(&exits[exits.len() - 1 - number])
        } else {
            None
        }
    }

    /// Where a hop leads.
    #[tactic(auto, using(crate::proofs::Searching::lengths))]
    pub fn standing(&self, hop: Hop) -> Standing
        ensures { result ≡ standing_of (work_of self.now) hop }
    {
        match hop {
            Hop::Part(number) => {
                let entries = self.entries.as_slice();
                if (number as usize) < entries.len() {
                    self.plain(entries[number as usize])
                } else {
                    Standing::End
                }
            }
            Hop::State(_) | Hop::Loop(_) | Hop::End => self.plain(hop),
        }
    }

    // Where a hop leads that isn't to a protocol.
    #[tactic(auto, using(crate::proofs::Searching::lengths))]
    fn plain(&self, hop: Hop) -> Standing
        ensures { result ≡ plain_standing (work_of self.now) hop }
    {
        let count = self.exits.len() as u32;
        match hop {
            Hop::State(n) => Standing::State(count.saturating_sub(n)),
            Hop::Loop(k) => {
                let first = if (k as usize) < self.loops.len() {
                    self.loops[k as usize]
                } else {
                    0
                };
                Standing::State(count.saturating_sub(first))
            }
            Hop::Part(_) | Hop::End => Standing::End,
        }
    }

    /// Where a call leads from a state that offers this, if it is offered.
    pub fn led(
        &self,
        alloc: Global,
        me: &str,
        exits: &Exits<'_>,
        call: &Call<'_>,
    ) -> Result<Option<Hop>, Memory>
        ensures { IfOk result (λ hop. hop ≡ led_if me.now (work_of self.now) exits.now.number exits.now.arrows.items
            (call_said call.now).method (call_said call.now).answer) }
    {
        let method = call.method;
        let arrows = exits.arrows.as_slice();
        match (exits.number, call.answer) {
            (None, None) => Ok(find_message(method, arrows)),
            (Some(behind), Some(label)) => {
                let number = self.choice_number(behind);
                let digits = format!(in alloc; "{number}")?;
                Ok(find_look(me, digits.as_str(), method, label, arrows))
            }
            _ => Ok(None),
        }
    }

    /// Whether an arrow of a state of this number is that of a call.
    pub fn has_call(
        &self,
        alloc: Global,
        me: &str,
        number: Option<u32>,
        arrow: &Arrow<'_>,
        call: &Call<'_>,
    ) -> Result<bool, Memory>
        ensures { IfOk result (λ b. b ≡ is_called me.now (work_of self.now) number (call_said call.now).method
            (call_said call.now).answer arrow.now) }
    {
        let method = call.method;
        let message = arrow.message;
        match (number, call.answer) {
            (None, None) => Ok(is_message_call(method, message)),
            (Some(behind), Some(label)) => {
                let number = self.choice_number(behind);
                let digits = format!(in alloc; "{number}")?;
                Ok(
                    message.label.as_str() == label
                        && is_label_call(method, me, digits.as_str(), message.peer.as_str()),
                )
            }
            _ => Ok(false),
        }
    }
}
