//! Objects: their making, and their fields.
//! Each is found by its number.

ghost use Rattle.std.specs.Prelude.{◌≡◌, ℕ, ◌<◌, ◌≤◌, ◌-◌, ◌^◌, List, length, map, All, IfOk, OnErr};
ghost use Rattle.vm_model.specs.Program.{fields_in, class_at};
ghost use Rattle.vm_model.specs.View.{field_of};
ghost use Rattle.vm_model.specs.Tests.{below};
ghost use Rattle.vm_model.specs.Step as model;
ghost use Rattle.mg_text.specs.Call.{Name};
ghost use Rattle.vm_frames.specs.Seen.{value_in, values_in, IsSet};
ghost use Rattle.vm_frames.specs.Kept.{most};
ghost use Rattle.vm_session.specs.State.{state_of, operands_of};
ghost use Rattle.vm_step.specs.Doing.{Plays};
ghost use Rattle.vm_session.specs.inner.Tops.{at_top};
ghost use Rattle.vm_step.specs.inner.Objects.{reads_by, writes_by};

use crate::program::{class_at, class_name};
use mg_text::{BadKind, Ending, Event, Memory, Text};
use std::alloc::Global;
use vm_frames::{Cell, State};
use vm_model::{Linked, LinkedField, LinkedType};
use vm_session::{Stepped, broken};

/// What a field of a new object holds: 0, false or null.
fn blank(field: &LinkedField) -> Cell
    ensures value { (texts : List Name) → value_in texts result ≡ model.blank (field_of field.now) }
    ensures set { (count : ℕ) → IsSet count result }
{
    match &field.field_type {
        Some(LinkedType::Int | LinkedType::Truth) => Cell::Int(0),
        _ => Cell::Null,
    }
}

/// What the fields of a new object hold.
fn blanks(alloc: Global, fields: &[LinkedField]) -> Result<Vec<Cell>, Memory>
    ensures values { IfOk result (λ v. (texts : List Name) → values_in texts v.items ≡ map model.blank (map field_of fields.now)) }
    ensures set { IfOk result (λ v. (count : ℕ) → All (IsSet count) v.items) }
{
    let mut cells = Vec::new(alloc);
    for field in fields {
        cells.push(blank(field))?;
    }
    Ok(cells)
}

/// What the fields of a new object of a class hold.
fn blanks_of(alloc: Global, linked: &Linked, class: u32) -> Result<Vec<Cell>, Memory>
    ensures values { IfOk result (λ v. (texts : List Name) → values_in texts v.items
        ≡ map model.blank (fields_in (class_at linked.now class))) }
    ensures set { IfOk result (λ v. (count : ℕ) → All (IsSet count) v.items) }
{
    match class_at(linked, class) {
        Some(found) => blanks(alloc, found.fields.as_slice()),
        None => Ok(Vec::new(alloc)),
    }
}

/// Makes an object of a class. After an error nothing has changed.
pub(crate) fn make(
    state: &mut State,
    alloc: Global,
    linked: &Linked,
    class: u32,
) -> Result<Stepped, Memory>
    requires place { state.old.machine.frame.place < 2 ^ 32 - 1 }
    requires room { length (operands_of state.old) < most }
    ensures ok { IfOk result (λ s. Plays (λ q. model.makes linked.now q (state_of state.old) class
        (operands_of state.old)) (state_of state.old) (state_of state.new) s) }
    ensures err { OnErr result (state_of state.new ≡ state_of state.old) }
{
    let name = Text::of(alloc, class_name(linked, class))?;
    let fields = blanks_of(alloc, linked, class)?;
    let object = state.make(class, fields)?;
    let place = state.place() + 1;
    state.push(Cell::Object(object), place);
    Ok(Stepped::Went(Some(Event::Made {
        object,
        class: name,
    })))
}

/// Pushes what a field of the object on top holds, in the object's place.
pub(crate) fn read(state: &mut State, field: u32) -> Stepped
    requires place { state.old.machine.frame.place < 2 ^ 32 - 1 }
    requires within { 1 ≤ length (operands_of state.old) }
    ensures { Plays (λ q. reads_by q (state_of state.old) field (below 1 (operands_of state.old))
        (at_top (operands_of state.old) 0)) (state_of state.old) (state_of state.new) result }
{
    let object = match state.operand(0) {
        Cell::Object(number) => number,
        Cell::Null | Cell::Unset => return Stepped::Ended(Ending::Null),
        _ => return Stepped::Ended(Ending::Bad(BadKind::Member)),
    };
    let Some(cell) = state.field(object, field) else {
        return broken(BadKind::Member);
    };
    let place = state.place() + 1;
    state.put(1, cell, place);
    Stepped::Went(None)
}

/// Takes the value on top into a field of the object under it.
pub(crate) fn write(state: &mut State, field: u32) -> Stepped
    requires place { state.old.machine.frame.place < 2 ^ 32 - 1 }
    requires within { 2 ≤ length (operands_of state.old) }
    ensures { Plays (λ q. writes_by q (state_of state.old) field (below 2 (operands_of state.old))
        (at_top (operands_of state.old) 1) (at_top (operands_of state.old) 0)) (state_of state.old) (state_of state.new) result }
{
    let object = match state.operand(1) {
        Cell::Object(number) => number,
        Cell::Null | Cell::Unset => return Stepped::Ended(Ending::Null),
        _ => return Stepped::Ended(Ending::Bad(BadKind::Member)),
    };
    let Some(_class) = state.class_of_object(object) else {
        return broken(BadKind::Member);
    };
    let cell = state.operand(0);
    state.set_field(object, field, cell);
    let place = state.place() + 1;
    state.drop(2, place);
    Stepped::Went(None)
}
