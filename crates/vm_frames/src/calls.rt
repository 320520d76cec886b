//! Frames that begin and end.
//! Only a call takes memory, and it does so before it changes anything.

ghost use Rattle.std.specs.Prelude.{◌≡◌, ◌-◌, ◌+◌, ◌<◌, ◌≤◌, ◌^◌, [], length, option_map, option_to_list, IfSome};
ghost use Rattle.std.specs.Prelude.{MatchOption, OnOk, OnErr, Some};
ghost use Rattle.std.specs.Bool.{OnTrue, OnFalse};
ghost use Rattle.vm_frames.specs.Seen.{value_in, IsSet};
ghost use Rattle.vm_frames.specs.Frames.{entered, left_to, IsNearest};

use crate::cell::{Cell, Head};
use crate::state::{MOST, State};
use mg_text::Memory;

/// A method that is called: its class, its number there, how many operands it takes and how many
/// locals it has, and the object that tells when it is left.
#[derive(Clone, Copy)]
pub struct Callee {
    pub class: u32,
    pub method: u32,
    pub args: usize,
    pub locals: u16,
    pub told: Option<u32>,
}

/// A frame that waits.
#[derive(Clone, Copy)]
pub struct Waiting {
    pub class: u32,
    pub method: u32,
    pub operands: usize,
}

impl State {
    /// Whether a method can be run over the running frame without memory. The answer only spares work: where there is no room,
    /// `enter` makes some.
    #[inline(always)]
    pub fn has_room(&self, callee: Callee) -> bool
        requires { callee.args ≤ callee.locals }
    {
        let unset = usize::from(callee.locals) - callee.args;
        self.heads.len() < self.heads.capacity() && self.cells.has_room(unset + MOST)
    }

    /// Runs a method over the running frame, which goes on behind the call. The operands that it
    /// takes become its first locals where they lie.
    ///
    /// # Errors
    /// `Memory` only, and then nothing has changed.
    #[inline(always)]
    pub fn enter(&mut self, callee: Callee) -> Result<(), Memory>
        requires place { self.old.machine.frame.place < 2 ^ 32 - 1 }
        requires args { callee.args ≤ length self.old.machine.frame.operands }
        requires locals { callee.args ≤ callee.locals }
        ensures ok { OnOk result (self.new.machine ≡ entered self.old.machine callee.class callee.method callee.args callee.locals
            callee.told) }
        ensures err { OnErr result (self.new.machine ≡ self.old.machine) }
        ensures texts { self.new.texts ≡ self.old.texts }
    {
        let unset = usize::from(callee.locals) - callee.args;
        self.heads.reserve(1)?;
        match self.cells.reserve(unset + MOST) {
            Ok(()) => {
                self.head.place += 1;
                self.heads.push_reserved(self.head);
                self.cells.enter(callee.args, Cell::Unset, unset);
                self.head = Head {
                    class: callee.class,
                    method: callee.method,
                    place: 0,
                    told: callee.told,
                    locals: callee.locals,
                };
                Ok(())
            }
            Err(_) => Err(Memory),
        }
    }

    /// The frame that goes on where the running one is left, if one waits.
    #[inline(always)]
    pub fn waiting(&self) -> Option<Waiting>
        ensures nearest { MatchOption result (self.now.machine.callers ≡ [])
            (λ w. IsNearest w.class w.method w.operands self.now.machine.callers) }
        ensures bound { IfSome result (λ w. w.operands < 2 ^ 63) }
    {
        let Some(head) = self.heads.last() else {
            return None;
        };
        let Some(depth) = self.cells.depth_below() else {
            return None;
        };
        Some(Waiting {
            class: head.class,
            method: head.method,
            operands: depth - usize::from(head.locals),
        })
    }

    /// Leaves the running frame for the nearest that waits, if one does, and hands a value to it.
    #[inline(always)]
    pub fn leave(&mut self, value: Option<Cell>) -> bool
        requires { IfSome value (IsSet (length self.old.texts)) }
        ensures yes { OnTrue result (left_to self.old.machine (option_to_list (option_map (value_in self.old.texts) value))
            self.old.machine.callers ≡ Some self.new.machine) }
        ensures no { OnFalse result ((self.old.machine.callers ≡ []) × (self.new.machine ≡ self.old.machine)) }
        ensures texts { self.new.texts ≡ self.old.texts }
    {
        let Some(head) = self.heads.pop() else {
            return false;
        };
        self.head = head;
        let _left = self.cells.leave();
        match value {
            Some(cell) => {
                self.cells.push(cell);
                true
            }
            None => true,
        }
    }
}
