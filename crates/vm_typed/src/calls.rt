//! Calls of which no object tells and returns from them, where a machine fits its typings: the arguments fit, and so does the result.

ghost use Rattle.std.specs.Prelude.{◌≡◌, ◌-◌, ◌<◌, ◌≤◌, ◌^◌, None, Some, length, option_map, IfSome};
ghost use Rattle.std.specs.Bool.{OnTrue, OnFalse};
ghost use Rattle.vm_model.specs.Actions as actions;
ghost use Rattle.vm_frames.specs.Frames.{entered};
ghost use Rattle.vm_session.specs.State.{state_of, operands_of};
ghost use Rattle.vm_actions.specs.Table.{sort_of};
ghost use Rattle.vm_flat.specs.Flat.{IsFlatOf};
ghost use Rattle.cls_verify.specs.Sound.{Sound};
ghost use Rattle.vm_typed.specs.Next.{IsNext};
ghost use Rattle.vm_typed.specs.Running.{StepsTo, IsAwaited};

use vm_actions::Sort;
use vm_flat::{Flat, FlatMethod, FlatProgram, method_there};
use vm_frames::{Callee, Cell, State};
use vm_model::Linked;

/// Runs a method that has so many locals over the running frame, where there is room for it: a frame that wants memory is entered by
/// others, who say so where there is none.
#[inline(always)]
pub fn enter(state: &mut State, class: u32, method: u32, taken: usize, locals: u16) -> bool
    requires place { state.old.machine.frame.place < 2 ^ 32 - 1 }
    requires within { taken ≤ length (operands_of state.old) }
    requires locals { taken ≤ locals }
    ensures yes { OnTrue result (state_of state.new ≡ entered (state_of state.old) class method taken locals None) }
    ensures no { OnFalse result (state_of state.new ≡ state_of state.old) }
{
    let callee = Callee {
        class,
        method,
        args: taken,
        locals,
        told: None,
    };
    enter_told(state, callee)
}

/// The same of a method that an object may tell of.
#[inline(always)]
pub(crate) fn enter_told(state: &mut State, callee: Callee) -> bool
    requires place { state.old.machine.frame.place < 2 ^ 32 - 1 }
    requires within { callee.args ≤ length (operands_of state.old) }
    requires locals { callee.args ≤ callee.locals }
    ensures yes { OnTrue result (state_of state.new ≡ entered (state_of state.old) callee.class callee.method callee.args callee.locals
        callee.told) }
    ensures no { OnFalse result (state_of state.new ≡ state_of state.old) }
{
    if !state.has_room(callee) {
        return false;
    }
    match state.enter(callee) {
        Ok(()) => true,
        Err(_) => false,
    }
}

/// Calls a static method, and answers the code that runs then, where there is room for its frame.
#[inline(always)]
pub(crate) fn call_static<'a>(
    state: &mut State,
    linked: &Linked,
    flat: &'a FlatProgram,
    class: u16,
    method: u32,
) -> Option<&'a [Flat]>
    requires place { state.old.machine.frame.place < 2 ^ 32 - 1 }
    requires flat { IsFlatOf flat.now linked.now }
    requires next { IsNext linked.now (state_of state.old) (actions.Call actions.Static class method) }
    ensures { StepsTo linked.now (state_of state.old) (state_of state.new) (option_map (λ c. c.now) result) }
{
    let class = u32::from(class);
    let called = method_there(flat, class, method);
    if !enter(
        state,
        class,
        method,
        called.params as usize,
        called.max_locals,
    ) {
        return None;
    }
    Some(called.code.as_slice())
}

/// Calls a method of an object that doesn't tell of it, unless the object is null.
#[inline(always)]
pub(crate) fn call_silent<'a>(
    state: &mut State,
    linked: &Linked,
    flat: &'a FlatProgram,
    class: u16,
    method: u32,
) -> Option<&'a [Flat]>
    requires place { state.old.machine.frame.place < 2 ^ 32 - 1 }
    requires flat { IsFlatOf flat.now linked.now }
    requires next { IsNext linked.now (state_of state.old) (actions.Call actions.Silent class method) }
    ensures { StepsTo linked.now (state_of state.old) (state_of state.new) (option_map (λ c. c.now) result) }
{
    let class = u32::from(class);
    let called = method_there(flat, class, method);
    let count = called.params as usize;
    let Cell::Object(_object) = state.operand(count) else {
        return None;
    };
    if !enter(state, class, method, count + 1, called.max_locals) {
        return None;
    }
    Some(called.code.as_slice())
}

/// The method of the nearest frame that waits, where no object tells that the running one is left.
#[inline(always)]
fn awaited<'a>(state: &State, linked: &Linked, flat: &'a FlatProgram) -> Option<&'a FlatMethod>
    requires flat { IsFlatOf flat.now linked.now }
    requires sound { Sound linked.now (state_of state.now) }
    ensures told { IfSome result (λ f. state.now.machine.frame.told ≡ None) }
    ensures waits { IfSome result (λ f. IsAwaited linked.now f.now state.now.machine.callers) }
{
    let _program = linked;
    if let Some(_object) = state.told() {
        return None;
    }
    let Some(waiting) = state.waiting() else {
        return None;
    };
    Some(method_there(flat, waiting.class, waiting.method))
}

/// Returns with no value, and answers the code that runs then, unless an object tells of it or no frame waits.
#[inline(always)]
pub(crate) fn return_nothing<'a>(
    state: &mut State,
    linked: &Linked,
    flat: &'a FlatProgram,
) -> Option<&'a [Flat]>
    requires flat { IsFlatOf flat.now linked.now }
    requires next { IsNext linked.now (state_of state.old) (actions.Return None) }
    ensures { StepsTo linked.now (state_of state.old) (state_of state.new) (option_map (λ c. c.now) result) }
{
    let Some(method) = awaited(state, linked, flat) else {
        return None;
    };
    let _left = state.leave(None);
    Some(method.code.as_slice())
}

/// The same with the value on top.
#[inline(always)]
pub(crate) fn return_value<'a>(
    state: &mut State,
    linked: &Linked,
    flat: &'a FlatProgram,
    sort: Sort,
) -> Option<&'a [Flat]>
    requires flat { IsFlatOf flat.now linked.now }
    requires next { IsNext linked.now (state_of state.old) (actions.Return (Some (sort_of sort))) }
    ensures { StepsTo linked.now (state_of state.old) (state_of state.new) (option_map (λ c. c.now) result) }
{
    let Some(method) = awaited(state, linked, flat) else {
        return None;
    };
    let value = state.operand(0);
    let _left = state.leave(Some(value));
    Some(method.code.as_slice())
}
