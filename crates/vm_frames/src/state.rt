//! The state of a machine. Its running frame lies on those that wait, in one region.
//! What the running method is stands beside the cells.

ghost use Rattle.std.specs.Prelude.{◌≡◌, [], ◌∷◌, IfOk};
ghost use Rattle.vm_model.specs.Step.{at_place};
ghost use Rattle.vm_frames.specs.Frames.{started};
ghost use Rattle.vm_frames.specs.Lying.{AllLie};

use crate::cell::{Cell, Head, Object};
use crate::notes::Notes;
use mg_text::{List, Memory, Text};
use raw_stack::RawStack;
use std::alloc::Global;
use std::marker::Model;
use vm_model::Linked;

/// The frames, objects and texts of a machine. There is always room for as many operands of the
/// running frame as a method may have.
#[derive(Drop)]
pub struct State {
    pub(crate) cells: RawStack<Cell>,
    pub(crate) head: Head,
    /// What the frames that wait are beside their cells, the nearest last. Below them all lies an
    /// empty frame that has none.
    pub(crate) heads: Vec<Head>,
    pub(crate) heap: Vec<Object>,
    pub(crate) texts: List<Text>,
    pub(crate) notes: Notes,
}

impl Model for State {
    ghost use Rattle.vm_frames.specs.Seen.{Seen};

    ghost Value = { Seen };

    ghost use Rattle.vm_frames.specs.View.{seen_of};
    ghost use Rattle.vm_frames.specs.Kept.{IsKept};

    ghost view = { seen_of };

    ghost invariant = { IsKept };
}

/// The most operands that a frame has room for.
pub const MOST: usize = 0xffff;

impl State {
    /// The state at the beginning of a method of a program that has so many locals: one frame, whose
    /// locals are unset, and no objects.
    ///
    /// # Errors
    /// `Memory` only.
    pub fn start(
        alloc: Global,
        linked: &Linked,
        class: u32,
        method: u32,
        locals: u16,
    ) -> Result<State, Memory>
        ensures machine { IfOk result (λ s. s.machine ≡ started class method locals) }
        ensures texts { IfOk result (λ s. s.texts ≡ []) }
    {
        let notes = Notes::new(alloc, linked)?;
        let count = usize::from(locals);
        let mut cells = RawStack::new(alloc);
        match cells.reserve(count + MOST) {
            Ok(()) => {
                cells.enter(0, Cell::Unset, count);
                Ok(State {
                    cells,
                    head: Head {
                        class,
                        method,
                        place: 0,
                        told: None,
                        locals,
                    },
                    heads: Vec::new(alloc),
                    heap: Vec::new(alloc),
                    texts: List::new(alloc),
                    notes,
                })
            }
            Err(_) => Err(Memory),
        }
    }

    /// The frames, and the empty one below them.
    pub fn frames(&self) -> &RawStack<Cell>
        ensures { AllLie self.now.texts (self.now.machine.frame ∷ self.now.machine.callers) (result.now.running ∷ result.now.callers) }
    {
        &self.cells
    }

    /// The class of the method that runs.
    #[inline(always)]
    pub fn class(&self) -> u32
        ensures { result ≡ self.now.machine.frame.class }
    {
        self.head.class
    }

    /// The number of the method that runs, in its class.
    #[inline(always)]
    pub fn method(&self) -> u32
        ensures { result ≡ self.now.machine.frame.method }
    {
        self.head.method
    }

    /// The number of the next instruction.
    #[inline(always)]
    pub fn place(&self) -> u32
        ensures { result ≡ self.now.machine.frame.place }
    {
        self.head.place
    }

    /// The object that tells when the running frame is left.
    #[inline(always)]
    pub fn told(&self) -> Option<u32>
        ensures { result ≡ self.now.machine.frame.told }
    {
        self.head.told
    }

    /// Goes to a place of the method.
    #[inline(always)]
    pub fn go_to(&mut self, place: u32)
        ensures machine { self.new.machine ≡ at_place self.old.machine place self.old.machine.frame.operands }
        ensures texts { self.new.texts ≡ self.old.texts }
    {
        self.head.place = place;
    }
}
