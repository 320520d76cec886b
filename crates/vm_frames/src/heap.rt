//! The objects, by their numbers.
//! None is ever taken away.

ghost use Rattle.std.specs.Prelude.{◌≡◌, ◌<◌, ◌++◌, ◌∷◌, [], length, option_map, slice_get, slice_set, All, IfOk, IfSome};
ghost use Rattle.std.specs.Prelude.{IsSome, OnErr, Some};
ghost use Rattle.vm_frames.specs.Seen.{value_in, values_in, IsSet};
ghost use Rattle.vm_frames.specs.View.{cell_in};
ghost use Rattle.vm_frames.specs.Frames.{field_in, with_field};

use crate::cell::{Cell, Object};
use crate::state::State;
use mg_text::Memory;

/// The largest number of objects.
const LAST: usize = 0xffff_fffe;

impl State {
    /// The class of an object, where there is one of this number.
    #[inline(always)]
    pub fn class_of_object(&self, object: u32) -> Option<u32>
        ensures { result ≡ option_map (λ o. o.class) (slice_get self.now.machine.heap object) }
    {
        class_at(self.heap.as_slice(), object)
    }

    /// What a field of an object holds, where there are both.
    #[inline(always)]
    pub fn field(&self, object: u32, field: u32) -> Option<Cell>
        ensures value { option_map (value_in self.now.texts) result ≡ field_in self.now.machine.heap object field }
        ensures set { IfSome result (IsSet (length self.now.texts)) }
    {
        cell_at(self.heap.as_slice(), object, field)
    }

    /// What a field of an object holds, of which it is known that there are both.
    #[inline(always)]
    pub fn held_field(&self, object: u32, field: u32) -> Cell
        requires { IsSome (field_in self.now.machine.heap object field) }
        ensures value { Some (value_in self.now.texts result) ≡ field_in self.now.machine.heap object field }
        ensures set { IsSet (length self.now.texts) result }
    {
        cell_there(self.heap.as_slice(), object, field)
    }

    /// Puts a value into a field of an object, where there are both.
    #[inline(always)]
    pub fn set_field(&mut self, object: u32, field: u32, cell: Cell)
        requires { IsSet (length self.old.texts) cell }
        ensures machine { self.new.machine ≡ record self.old.machine {
          heap = with_field self.old.machine.heap object field
              (value_in self.old.texts cell) (slice_get self.old.machine.heap object);
        } }
        ensures texts { self.new.texts ≡ self.old.texts }
    {
        let number = object as usize;
        if number >= self.heap.len() {
            return;
        }
        let found = &mut self.heap[number];
        put_field(found, field as usize, cell);
    }

    /// Makes an object of a class whose fields hold these, and answers its number. After an error
    /// nothing has changed.
    ///
    /// # Errors
    /// `Memory` only.
    pub fn make(&mut self, class: u32, fields: Vec<Cell>) -> Result<u32, Memory>
        requires { All (IsSet (length self.old.texts)) fields.items }
        ensures number { IfOk result (λ n. n ≡ length self.old.machine.heap) }
        ensures ok { IfOk result (λ _. self.new.machine ≡ record self.old.machine {
          heap = self.old.machine.heap ++ record {
            class = class;
            fields = values_in self.old.texts fields.items;
          } ∷ [];
        }) }
        ensures err { OnErr result (self.new.machine ≡ self.old.machine) }
        ensures texts { self.new.texts ≡ self.old.texts }
    {
        let count = self.heap.len();
        if count > LAST {
            return Err(Memory);
        }
        self.heap.push(Object { class, fields })?;
        Ok(count as u32)
    }
}

/// The class of the object of a number.
#[inline(always)]
fn class_at(heap: &[Object], object: u32) -> Option<u32>
    ensures { result ≡ option_map (λ o. o.class) (slice_get heap.now object) }
{
    match heap.get(object as usize) {
        Some(found) => Some(found.class),
        None => None,
    }
}

/// The cell of a field of the object of a number.
#[inline(always)]
fn cell_at(heap: &[Object], object: u32, field: u32) -> Option<Cell>
    ensures { result ≡ cell_in heap.now object field }
{
    match heap.get(object as usize) {
        Some(found) => found.fields.get(field as usize).copied(),
        None => None,
    }
}

/// The cell of a field that is there.
#[inline(always)]
fn cell_there(heap: &[Object], object: u32, field: u32) -> Cell
    requires { IsSome (cell_in heap.now object field) }
    ensures { Some result ≡ cell_in heap.now object field }
{
    let found = &heap[object as usize];
    found.fields[field as usize]
}

/// Puts a cell into a field, where there is one of this number.
#[inline(always)]
fn put_field(object: &mut Object, field: usize, cell: Cell)
    ensures class { object.new.class ≡ object.old.class }
    ensures fields { object.new.fields.items ≡ slice_set object.old.fields.items field cell }
{
    if field < object.fields.len() {
        object.fields[field] = cell;
    }
}
