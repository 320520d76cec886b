//! Fields of objects that are read and written, where a machine fits its typings: an object on the way has its fields.

ghost use Rattle.std.specs.Prelude.{◌≡◌, ◌-◌, ◌<◌, ◌^◌};
ghost use Rattle.vm_model.specs.Actions as actions;
ghost use Rattle.vm_session.specs.State.{state_of};
ghost use Rattle.vm_typed.specs.Alone.{StepsWithin};
ghost use Rattle.vm_typed.specs.Next.{IsNext};

use vm_frames::{Cell, State};
use vm_model::Linked;

/// Pushes what a field of the object on top holds, in the object's place, unless that is null.
#[inline(always)]
pub(crate) fn read(state: &mut State, linked: &Linked, class: u16, field: u32) -> bool
    requires place { state.old.machine.frame.place < 2 ^ 32 - 1 }
    requires next { IsNext linked.now (state_of state.old) (actions.Read class field) }
    ensures { StepsWithin linked.now (state_of state.old) (state_of state.new) result }
{
    let Cell::Object(object) = state.operand(0) else {
        return false;
    };
    let cell = state.held_field(object, field);
    let place = state.place() + 1;
    state.put(1, cell, place);
    true
}

/// Takes the value on top into a field of the object under it, unless that is null.
#[inline(always)]
pub(crate) fn write(state: &mut State, linked: &Linked, class: u16, field: u32) -> bool
    requires place { state.old.machine.frame.place < 2 ^ 32 - 1 }
    requires next { IsNext linked.now (state_of state.old) (actions.Write class field) }
    ensures { StepsWithin linked.now (state_of state.old) (state_of state.new) result }
{
    let Cell::Object(object) = state.operand(1) else {
        return false;
    };
    let cell = state.operand(0);
    let place = state.place() + 1;
    state.drop(2, place);
    state.set_field(object, field, cell);
    true
}
