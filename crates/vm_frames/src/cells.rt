//! The operands and locals of the running frame, by the cells where they lie.
//! Nothing here takes memory.

ghost use Rattle.std.specs.Prelude.{◌≡◌, ◌+◌, ◌-◌, ◌<◌, ◌≤◌, ◌^◌, ◌++◌, ◌∷◌, [], length, slice_get, option_map, IfSome, IsSome, Some};
ghost use Rattle.vm_model.specs.Tests.{below};
ghost use Rattle.vm_model.specs.Step.{at_place, with_local};
ghost use Rattle.vm_frames.specs.Seen.{value_in, held_in, IsSet};
ghost use Rattle.vm_frames.specs.Kept.{most};

use crate::cell::Cell;
use crate::state::State;

impl State {
    /// How many operands there are.
    #[inline(always)]
    pub fn depth(&self) -> usize
        ensures value { result ≡ length self.now.machine.frame.operands }
        ensures bound { result < 2 ^ 63 }
    {
        self.cells.depth() - usize::from(self.head.locals)
    }

    /// How many locals there are.
    #[inline(always)]
    pub fn locals(&self) -> usize
        ensures { result ≡ length self.now.machine.frame.locals }
    {
        usize::from(self.head.locals)
    }

    /// The operand so far below the top.
    #[inline(always)]
    pub fn operand(&self, above: usize) -> Cell
        requires { above < length self.now.machine.frame.operands }
        ensures value { slice_get self.now.machine.frame.operands (length self.now.machine.frame.operands - (above + 1))
            ≡ Some (value_in self.now.texts result) }
        ensures set { IsSet (length self.now.texts) result }
    {
        self.cells.from_top(above)
    }

    /// What a local holds, where there is one of this number and it was stored to.
    #[inline(always)]
    pub fn held(&self, local: usize) -> Option<Cell>
        ensures value { option_map (value_in self.now.texts) result ≡ held_in (slice_get self.now.machine.frame.locals local) }
        ensures set { IfSome result (IsSet (length self.now.texts)) }
    {
        if local >= usize::from(self.head.locals) {
            return None;
        }
        match self.cells.at(local) {
            Cell::Unset => None,
            cell => Some(cell),
        }
    }

    /// What a local holds that was stored to.
    #[inline(always)]
    pub fn local(&self, local: usize) -> Cell
        requires { IsSome (held_in (slice_get self.now.machine.frame.locals local)) }
        ensures value { Some (value_in self.now.texts result) ≡ held_in (slice_get self.now.machine.frame.locals local) }
        ensures set { IsSet (length self.now.texts) result }
    {
        self.cells.at(local)
    }

    /// Puts a value on top, and goes to a place.
    #[inline(always)]
    pub fn push(&mut self, cell: Cell, place: u32)
        requires room { length self.old.machine.frame.operands < most }
        requires set { IsSet (length self.old.texts) cell }
        ensures machine { self.new.machine ≡ at_place self.old.machine place
            (self.old.machine.frame.operands ++ value_in self.old.texts cell ∷ []) }
        ensures texts { self.new.texts ≡ self.old.texts }
    {
        self.cells.push(cell);
        self.head.place = place;
    }

    /// Drops so many operands, and goes to a place.
    #[inline(always)]
    pub fn drop(&mut self, count: usize, place: u32)
        requires { count ≤ length self.old.machine.frame.operands }
        ensures machine { self.new.machine ≡ at_place self.old.machine place
            (below count self.old.machine.frame.operands) }
        ensures texts { self.new.texts ≡ self.old.texts }
    {
        self.cells.drop_top(count);
        self.head.place = place;
    }

    /// Puts a value in the place of so many operands, and goes to a place.
    #[inline(always)]
    pub fn put(&mut self, count: usize, cell: Cell, place: u32)
        requires some { 0 < count }
        requires within { count ≤ length self.old.machine.frame.operands }
        requires set { IsSet (length self.old.texts) cell }
        ensures machine { self.new.machine ≡ at_place self.old.machine place
            (below count self.old.machine.frame.operands ++ value_in self.old.texts cell ∷ []) }
        ensures texts { self.new.texts ≡ self.old.texts }
    {
        self.cells.drop_top(count - 1);
        self.cells.put_top(cell);
        self.head.place = place;
    }

    /// Puts a value into a local.
    #[inline(always)]
    pub fn set_local(&mut self, local: usize, cell: Cell)
        requires within { local < length self.old.machine.frame.locals }
        requires set { IsSet (length self.old.texts) cell }
        ensures machine { self.new.machine ≡ with_local self.old.machine local (value_in self.old.texts cell) }
        ensures texts { self.new.texts ≡ self.old.texts }
    {
        self.cells.put(local, cell);
    }
}
