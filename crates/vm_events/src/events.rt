//! The events of all roles of a run, in their order.

ghost use Rattle.std.specs.Prelude.{◌≡◌, ◌<◌, ◌≤◌, ◌^◌, ◌+◌, ◌++◌, ◌∷◌, [], Some, length, slice_get, option_map, IfOk, OnOk};
ghost use Rattle.std.specs.Prelude.{OnErr};
ghost use Rattle.vm_world_law.specs.World.{of_role};
ghost use Rattle.vm_events.specs.Seen.{role_event_of, kind_of, Grows, IsNumbered, IsNamed, numbered_event};

use crate::kind::{Kind, kind_of};
use crate::note::Note;
use crate::numbered::{Numbered, short_of};
use crate::seen::Noted;
use crate::tables::Tables;
use mg_text::{Event, List, Memory};
use std::alloc::Global;
use std::marker::Model;

/// The events of all roles of a run, in their order, at most 2^32 - 1 of them. Contracts see the
/// list, beside it `spare`: how many more fit with no need of memory, and `texts`: the texts that are
/// kept, which events may name by their numbers.
pub struct Events {
    notes: List<Note>,
    tables: Tables,
}

// One call lets go of them, wherever a function ends.
impl Drop for Events {
    fn drop(self) {
        let Events {
            notes: _,
            tables: _,
        } = self;
    }
}

impl Model for Events {
    ghost use Rattle.vm_events.specs.Seen.{Kept};

    ghost Value = { Kept };

    ghost use Rattle.vm_events.specs.inner.View.{view_of, IsKept};

    ghost view = { view_of };

    ghost invariant = { IsKept };
}

impl Events {
    /// No events, and no texts.
    ///
    /// # Errors
    /// `Memory` only.
    pub fn new(alloc: Global) -> Result<Events, Memory>
        ensures items { IfOk result (λ e. e.items ≡ []) }
        ensures texts { IfOk result (λ e. e.texts ≡ []) }
    {
        let tables = Tables::new(alloc)?;
        Ok(Events {
            notes: List::new(alloc),
            tables,
        })
    }

    /// Makes room for one event more, whatever it is.
    ///
    /// # Errors
    /// `Memory` only, and past 2^32 - 1 events. The events and texts stay as they are.
    pub fn reserve(&mut self) -> Result<(), Memory>
        ensures items { self.new.items ≡ self.old.items }
        ensures texts { self.new.texts ≡ self.old.texts }
        ensures ok { OnOk result (0 < self.new.spare) }
        ensures never_lowered { self.old.spare ≤ self.new.spare }
    {
        self.tables.reserve()?;
        self.notes.reserve(1)
    }

    /// Appends an event of a role, for which there is room.
    pub fn add(&mut self, alloc: Global, role: u32, mut event: Event)
        requires { 0 < self.old.spare }
        ensures items { self.new.items ≡ self.old.items ++ of_role role event ∷ [] }
        ensures texts { Grows self.old.texts self.new.texts }
        ensures spare { self.old.spare ≤ self.new.spare + 1 }
    {
        let event = self.tables.keep(alloc, &mut event);
        self.notes.add(Note { role, event });
    }

    /// The number of a text: of one that was kept lately, or of a copy that is kept anew. It stays
    /// the text of this number. Room for an event isn't lost by it.
    ///
    /// # Errors
    /// `Memory` only, and past 2^32 - 1 texts. The texts stay as they are.
    pub fn number_of(&mut self, alloc: Global, text: &str) -> Result<u32, Memory>
        ensures items { self.new.items ≡ self.old.items }
        ensures texts { Grows self.old.texts self.new.texts }
        ensures number { IfOk result (λ n. IsNumbered self.new.texts n text.now) }
        ensures err { OnErr result (self.new.texts ≡ self.old.texts) }
        ensures room { 0 < self.old.spare → 0 < self.new.spare }
    {
        self.tables.texts.number_of_copy(alloc, text)
    }

    /// Appends an event of a role whose names and texts are kept, for which there is room.
    pub fn note(&mut self, role: u32, event: Numbered)
        requires room { 0 < self.old.spare }
        requires named { IsNamed (length self.old.texts) event }
        ensures items { self.new.items ≡ self.old.items ++ of_role role (numbered_event self.old.texts event) ∷ [] }
        ensures texts { self.new.texts ≡ self.old.texts }
        ensures spare { self.old.spare ≤ self.new.spare + 1 }
    {
        self.notes.add(Note {
            role,
            event: short_of(event),
        });
    }

    /// How many events there are.
    pub fn len(&self) -> usize
        ensures value { result ≡ length self.now.items }
        ensures bound { result < 2 ^ 32 }
    {
        self.notes.len()
    }

    /// The kind of the event at a place. No text is looked up.
    pub fn kind_at(&self, place: usize) -> Kind
        requires { place < length self.now.items }
        ensures { Some result ≡ option_map (λ e. kind_of e.event) (slice_get self.now.items place) }
    {
        kind_of(self.notes.as_slice()[place].event)
    }

    /// The event at a place, with its role.
    pub fn at(&self, place: usize) -> Noted<'_>
        requires { place < length self.now.items }
        ensures { Some (role_event_of result) ≡ slice_get self.now.items place }
    {
        let note = self.notes.as_slice()[place];
        Noted {
            role: note.role,
            event: self.tables.seen(note.event),
        }
    }
}
