//! The instructions that stay in their frame where nothing is wrong with them, by the cells where they lie.
//! What isn't right or needs memory is left to the general tests.

ghost use Rattle.std.specs.Prelude.{◌≡◌, List, ◌+◌, ◌-◌, ◌<◌, ◌≤◌, ◌^◌, ◌++◌, ◌∷◌, [], length, None};
ghost use Rattle.std.specs.Bool.{OnTrue, OnFalse};
ghost use Rattle.vm_model.specs.Actions as actions;
ghost use Rattle.vm_model.specs.Tests.{misfit_sort};
ghost use Rattle.vm_model.specs.Step.{next};
ghost use Rattle.mg_text.specs.Call.{Name};
ghost use Rattle.vm_frames.specs.Seen.{value_in, IsSet};
ghost use Rattle.vm_session.specs.State.{state_of, operands_of};
ghost use Rattle.vm_actions.specs.Table.{sort_of, constant_of, operation_of, comparison_of};
ghost use Rattle.vm_step.specs.Alone.{Alone};

use crate::needs::is_null;
use crate::plain::{place_after, same_truth};
use vm_actions::{
    Comparison, Constant, Operation, Sort, added, compares, computed, negated, switched,
};
use vm_frames::{Cell, State};
use vm_session::{int_at, int_of_local};

/// Whether a value is of this sort.
#[inline(always)]
pub(crate) fn is_of_sort(sort: Sort, cell: Cell) -> bool
    ensures { OnTrue result ((texts : List Name) → misfit_sort (sort_of sort) (value_in texts cell) ≡ None) }
{
    match sort {
        Sort::Number => matches!(cell, Cell::Int(_)),
        Sort::Reference => !matches!(cell, Cell::Int(_)),
    }
}

/// Puts a value on top where there is room for it, and goes on.
#[inline(always)]
fn push(state: &mut State, max: u16, cell: Cell) -> bool
    requires place { state.old.machine.frame.place < 2 ^ 32 - 1 }
    requires set { IsSet (length state.old.texts) cell }
    ensures room { OnTrue result (length (operands_of state.old) + 1 ≤ max) }
    ensures yes { OnTrue result (state_of state.new ≡ next (state_of state.old)
        (operands_of state.old ++ value_in state.old.texts cell ∷ [])) }
    ensures no { OnFalse result (state_of state.new ≡ state_of state.old) }
{
    if state.depth() >= usize::from(max) {
        return false;
    }
    let place = state.place() + 1;
    state.push(cell, place);
    true
}

/// Pushes a constant, which is no text or one that the instruction pushed before.
#[inline(always)]
pub(crate) fn push_constant(state: &mut State, max: u16, constant: Constant<'_>) -> bool
    requires { state.old.machine.frame.place < 2 ^ 32 - 1 }
    ensures { Alone max (actions.Push (constant_of constant.entry)) (state_of state.old) (state_of state.new) result }
{
    match constant {
        Constant::Int(x) => push(state, max, Cell::Int(x)),
        Constant::Null => push(state, max, Cell::Null),
        Constant::Text(text) => match state.noted(text.as_ref()) {
            Some(number) => push(state, max, Cell::Text(number)),
            None => false,
        },
    }
}

/// Pushes what a local holds.
#[inline(always)]
pub(crate) fn load(state: &mut State, max: u16, sort: Sort, local: u8) -> bool
    requires { state.old.machine.frame.place < 2 ^ 32 - 1 }
    ensures { Alone max (actions.Load (sort_of sort) local) (state_of state.old) (state_of state.new) result }
{
    let Some(cell) = state.held(usize::from(local)) else {
        return false;
    };
    if !is_of_sort(sort, cell) {
        return false;
    }
    push(state, max, cell)
}

/// Takes the operand on top into a local.
#[inline(always)]
pub(crate) fn store(state: &mut State, max: u16, sort: Sort, local: u8) -> bool
    requires { state.old.machine.frame.place < 2 ^ 32 - 1 }
    ensures { Alone max (actions.Store (sort_of sort) local) (state_of state.old) (state_of state.new) result }
{
    let count = state.depth();
    let local = usize::from(local);
    if count < 1 || count - 1 > usize::from(max) || local >= state.locals() {
        return false;
    }
    let cell = state.operand(0);
    if !is_of_sort(sort, cell) {
        return false;
    }
    state.set_local(local, cell);
    let place = state.place() + 1;
    state.drop(1, place);
    true
}

/// Drops the operand on top.
#[inline(always)]
pub(crate) fn pop(state: &mut State, max: u16) -> bool
    requires { state.old.machine.frame.place < 2 ^ 32 - 1 }
    ensures { Alone max actions.Pop (state_of state.old) (state_of state.new) result }
{
    let count = state.depth();
    if count < 1 || count - 1 > usize::from(max) {
        return false;
    }
    let place = state.place() + 1;
    state.drop(1, place);
    true
}

/// Pushes the operand on top once more.
#[inline(always)]
pub(crate) fn double(state: &mut State, max: u16) -> bool
    requires { state.old.machine.frame.place < 2 ^ 32 - 1 }
    ensures { Alone max actions.Double (state_of state.old) (state_of state.new) result }
{
    if state.depth() < 1 {
        return false;
    }
    let cell = state.operand(0);
    push(state, max, cell)
}

/// Computes the two ints on top.
#[inline(always)]
pub(crate) fn compute(state: &mut State, max: u16, operation: Operation) -> bool
    requires { state.old.machine.frame.place < 2 ^ 32 - 1 }
    ensures { Alone max (actions.Compute (operation_of operation)) (state_of state.old) (state_of state.new) result }
{
    let count = state.depth();
    if count < 2 || count - 1 > usize::from(max) {
        return false;
    }
    let Some(x) = int_at(state, 1) else {
        return false;
    };
    let Some(y) = int_at(state, 0) else {
        return false;
    };
    let Some(z) = computed(operation, x, y) else {
        return false;
    };
    let place = state.place() + 1;
    state.put(2, Cell::Int(z), place);
    true
}

/// Negates the int on top.
#[inline(always)]
pub(crate) fn negate(state: &mut State, max: u16) -> bool
    requires { state.old.machine.frame.place < 2 ^ 32 - 1 }
    ensures { Alone max actions.Negate (state_of state.old) (state_of state.new) result }
{
    let count = state.depth();
    if count < 1 || count > usize::from(max) {
        return false;
    }
    let Some(x) = int_at(state, 0) else {
        return false;
    };
    let place = state.place() + 1;
    state.put(1, Cell::Int(negated(x)), place);
    true
}

/// Adds to the int of a local.
#[inline(always)]
pub(crate) fn increase(state: &mut State, max: u16, local: u8, by: &i8) -> bool
    requires { state.old.machine.frame.place < 2 ^ 32 - 1 }
    ensures { Alone max (actions.Increase local by.now) (state_of state.old) (state_of state.new) result }
{
    if state.depth() > usize::from(max) {
        return false;
    }
    let local = usize::from(local);
    if local >= state.locals() {
        return false;
    }
    let Some(x) = int_of_local(state, local) else {
        return false;
    };
    state.set_local(local, Cell::Int(added(x, *by)));
    let place = state.place() + 1;
    state.go_to(place);
    true
}

/// Jumps where the int on top compares so with 0.
#[inline(always)]
pub(crate) fn jump_on_zero(state: &mut State, max: u16, comparison: Comparison, target: u32) -> bool
    requires { state.old.machine.frame.place < 2 ^ 32 - 1 }
    ensures { Alone max (actions.IfZero (comparison_of comparison) target) (state_of state.old) (state_of state.new) result }
{
    let count = state.depth();
    if count < 1 || count - 1 > usize::from(max) {
        return false;
    }
    let Some(x) = int_at(state, 0) else {
        return false;
    };
    let place = place_after(state, target, compares(comparison, x, 0));
    state.drop(1, place);
    true
}

/// Jumps where the two ints on top compare so.
#[inline(always)]
pub(crate) fn jump_on_both(state: &mut State, max: u16, comparison: Comparison, target: u32) -> bool
    requires { state.old.machine.frame.place < 2 ^ 32 - 1 }
    ensures { Alone max (actions.IfBoth (comparison_of comparison) target) (state_of state.old) (state_of state.new) result }
{
    let count = state.depth();
    if count < 2 || count - 2 > usize::from(max) {
        return false;
    }
    let Some(x) = int_at(state, 1) else {
        return false;
    };
    let Some(y) = int_at(state, 0) else {
        return false;
    };
    let place = place_after(state, target, compares(comparison, x, y));
    state.drop(2, place);
    true
}

/// Jumps where the reference on top is null, or where it isn't.
#[inline(always)]
pub(crate) fn jump_on_null(state: &mut State, max: u16, wanted: bool, target: u32) -> bool
    requires { state.old.machine.frame.place < 2 ^ 32 - 1 }
    ensures { Alone max (actions.IfNull wanted target) (state_of state.old) (state_of state.new) result }
{
    let count = state.depth();
    if count < 1 || count - 1 > usize::from(max) {
        return false;
    }
    let cell = state.operand(0);
    if !is_of_sort(Sort::Reference, cell) {
        return false;
    }
    let test = same_truth(wanted, is_null(cell));
    let place = place_after(state, target, test);
    state.drop(1, place);
    true
}

/// Jumps.
#[inline(always)]
pub(crate) fn jump(state: &mut State, max: u16, target: u32) -> bool
    ensures { Alone max (actions.Go target) (state_of state.old) (state_of state.new) result }
{
    if state.depth() > usize::from(max) {
        return false;
    }
    state.go_to(target);
    true
}

/// Jumps by the int on top.
#[inline(always)]
pub(crate) fn switch(state: &mut State, max: u16, default: u32, low: &i32, targets: &[u32]) -> bool
    ensures { Alone max (actions.Switch default low.now targets.now) (state_of state.old) (state_of state.new) result }
{
    let count = state.depth();
    if count < 1 || count - 1 > usize::from(max) {
        return false;
    }
    let Some(x) = int_at(state, 0) else {
        return false;
    };
    state.drop(1, switched(default, *low, targets, x));
    true
}
