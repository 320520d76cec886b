//! The actions that stay in their method, where a machine fits its typings: no test of depth, kind, local or room is made.

ghost use Rattle.std.specs.Prelude.{◌≡◌, ◌+◌, ◌-◌, ◌<◌, ◌≤◌, ◌^◌, List, true, length, if◌then◌else◌};
ghost use Rattle.mg_text.specs.Call.{Name};
ghost use Rattle.vm_model.specs.declared.linked.Built.TheVariants as builts;
ghost use Rattle.vm_model.specs.Actions as actions;
ghost use Rattle.vm_model.specs.Tests.{is_null, max_stack_in, method_of_frame};
ghost use Rattle.vm_model.specs.Step.{same_truth};
ghost use Rattle.vm_frames.specs.Kept.{most};
ghost use Rattle.vm_frames.specs.Seen.{value_in, IsSet};
ghost use Rattle.vm_session.specs.State.{state_of};
ghost use Rattle.vm_actions.specs.Table.{sort_of, operation_of, comparison_of};
ghost use Rattle.vm_typed.specs.Alone.{StepsWithin};
ghost use Rattle.vm_typed.specs.Next.{IsNext};

use vm_actions::{Comparison, Operation, Sort, added, compares, computed, negated};
use vm_frames::{Cell, State};
use vm_model::Linked;
use vm_session::int_at;

/// Pushes a value that stands in the code.
#[inline(always)]
pub(crate) fn push(state: &mut State, linked: &Linked, cell: Cell)
    requires place { state.old.machine.frame.place < 2 ^ 32 - 1 }
    requires room { max_stack_in (method_of_frame linked.now (state_of state.old).frame) ≤ most }
    requires set { IsSet (length state.old.texts) cell }
    requires next { IsNext linked.now (state_of state.old) (actions.Push (value_in state.old.texts cell)) }
    ensures { StepsWithin linked.now (state_of state.old) (state_of state.new) true }
{
    let _program = linked;
    let place = state.place() + 1;
    state.push(cell, place);
}

/// Pushes the print stream.
#[inline(always)]
pub(crate) fn push_out(state: &mut State, linked: &Linked)
    requires place { state.old.machine.frame.place < 2 ^ 32 - 1 }
    requires room { max_stack_in (method_of_frame linked.now (state_of state.old).frame) ≤ most }
    requires next { IsNext linked.now (state_of state.old) (actions.Use builts.Out) }
    ensures { StepsWithin linked.now (state_of state.old) (state_of state.new) true }
{
    let _program = linked;
    let place = state.place() + 1;
    state.push(Cell::Out, place);
}

/// Pushes what a local holds.
#[inline(always)]
pub(crate) fn load(state: &mut State, linked: &Linked, sort: Sort, local: u8)
    requires place { state.old.machine.frame.place < 2 ^ 32 - 1 }
    requires room { max_stack_in (method_of_frame linked.now (state_of state.old).frame) ≤ most }
    requires next { IsNext linked.now (state_of state.old) (actions.Load (sort_of sort) local) }
    ensures { StepsWithin linked.now (state_of state.old) (state_of state.new) true }
{
    let cell = state.local(usize::from(local));
    let place = state.place() + 1;
    state.push(cell, place);
}

/// Takes the operand on top into a local.
#[inline(always)]
pub(crate) fn store(state: &mut State, linked: &Linked, sort: Sort, local: u8)
    requires place { state.old.machine.frame.place < 2 ^ 32 - 1 }
    requires next { IsNext linked.now (state_of state.old) (actions.Store (sort_of sort) local) }
    ensures { StepsWithin linked.now (state_of state.old) (state_of state.new) true }
{
    state.set_local(usize::from(local), state.operand(0));
    let place = state.place() + 1;
    state.drop(1, place);
}

/// Drops the operand on top.
#[inline(always)]
pub(crate) fn pop(state: &mut State, linked: &Linked)
    requires place { state.old.machine.frame.place < 2 ^ 32 - 1 }
    requires next { IsNext linked.now (state_of state.old) actions.Pop }
    ensures { StepsWithin linked.now (state_of state.old) (state_of state.new) true }
{
    let place = state.place() + 1;
    state.drop(1, place);
}

/// Pushes the operand on top once more.
#[inline(always)]
pub(crate) fn double(state: &mut State, linked: &Linked)
    requires place { state.old.machine.frame.place < 2 ^ 32 - 1 }
    requires room { max_stack_in (method_of_frame linked.now (state_of state.old).frame) ≤ most }
    requires next { IsNext linked.now (state_of state.old) actions.Double }
    ensures { StepsWithin linked.now (state_of state.old) (state_of state.new) true }
{
    let cell = state.operand(0);
    let place = state.place() + 1;
    state.push(cell, place);
}

/// Exchanges the two operands on top.
#[inline(always)]
pub(crate) fn swap(state: &mut State, linked: &Linked)
    requires place { state.old.machine.frame.place < 2 ^ 32 - 1 }
    requires room { max_stack_in (method_of_frame linked.now (state_of state.old).frame) ≤ most }
    requires next { IsNext linked.now (state_of state.old) actions.Swap }
    ensures { StepsWithin linked.now (state_of state.old) (state_of state.new) true }
{
    let top = state.operand(0);
    let under = state.operand(1);
    let place = state.place() + 1;
    state.put(2, top, place);
    state.push(under, place);
}

/// Computes the two ints on top, unless the divisor is zero.
#[inline(always)]
pub(crate) fn compute(state: &mut State, linked: &Linked, operation: Operation) -> bool
    requires place { state.old.machine.frame.place < 2 ^ 32 - 1 }
    requires next { IsNext linked.now (state_of state.old) (actions.Compute (operation_of operation)) }
    ensures { StepsWithin linked.now (state_of state.old) (state_of state.new) result }
{
    let Some(x) = int_at(state, 1) else {
        unreachable!()
    };
    let Some(y) = int_at(state, 0) else {
        unreachable!()
    };
    let Some(z) = computed(operation, x, y) else {
        return false;
    };
    let place = state.place() + 1;
    state.put(2, Cell::Int(z), place);
    true
}

/// Negates the int on top.
#[inline(always)]
pub(crate) fn negate(state: &mut State, linked: &Linked)
    requires place { state.old.machine.frame.place < 2 ^ 32 - 1 }
    requires next { IsNext linked.now (state_of state.old) actions.Negate }
    ensures { StepsWithin linked.now (state_of state.old) (state_of state.new) true }
{
    let Some(x) = int_at(state, 0) else {
        unreachable!()
    };
    let place = state.place() + 1;
    state.put(1, Cell::Int(negated(x)), place);
}

/// Adds to the int of a local.
#[inline(always)]
pub(crate) fn increase(state: &mut State, linked: &Linked, local: u8, by: i8)
    requires place { state.old.machine.frame.place < 2 ^ 32 - 1 }
    requires next { IsNext linked.now (state_of state.old) (actions.Increase local by) }
    ensures { StepsWithin linked.now (state_of state.old) (state_of state.new) true }
{
    let local = usize::from(local);
    let Cell::Int(x) = state.local(local) else {
        unreachable!()
    };
    state.set_local(local, Cell::Int(added(x, by)));
    let place = state.place() + 1;
    state.go_to(place);
}

/// Whether a value is null.
#[inline(always)]
fn is_null(cell: Cell) -> bool
    ensures { (texts : List Name) → result ≡ is_null (value_in texts cell) }
{
    matches!(cell, Cell::Null | Cell::Unset)
}

/// Whether a truth is the wanted one.
#[inline(always)]
fn same_truth(wanted: bool, truth: bool) -> bool
    ensures { result ≡ same_truth wanted truth }
{
    if wanted { truth } else { !truth }
}

/// The target where the test holds, else the next instruction.
#[inline(always)]
fn place_after(state: &State, target: u32, test: bool) -> u32
    requires { state.now.machine.frame.place < 2 ^ 32 - 1 }
    ensures { result ≡ (if test then target else (state_of state.now).frame.place + 1) }
{
    if test { target } else { state.place() + 1 }
}

/// Jumps where the int on top compares so with 0.
#[inline(always)]
pub(crate) fn jump_on_zero(state: &mut State, linked: &Linked, comparison: Comparison, target: u32)
    requires place { state.old.machine.frame.place < 2 ^ 32 - 1 }
    requires next { IsNext linked.now (state_of state.old) (actions.IfZero (comparison_of comparison) target) }
    ensures { StepsWithin linked.now (state_of state.old) (state_of state.new) true }
{
    let Some(x) = int_at(state, 0) else {
        unreachable!()
    };
    let place = place_after(state, target, compares(comparison, x, 0));
    state.drop(1, place);
}

/// Jumps where the two ints on top compare so.
#[inline(always)]
pub(crate) fn jump_on_both(state: &mut State, linked: &Linked, comparison: Comparison, target: u32)
    requires place { state.old.machine.frame.place < 2 ^ 32 - 1 }
    requires next { IsNext linked.now (state_of state.old) (actions.IfBoth (comparison_of comparison) target) }
    ensures { StepsWithin linked.now (state_of state.old) (state_of state.new) true }
{
    let Some(x) = int_at(state, 1) else {
        unreachable!()
    };
    let Some(y) = int_at(state, 0) else {
        unreachable!()
    };
    let place = place_after(state, target, compares(comparison, x, y));
    state.drop(2, place);
}

/// Jumps where the reference on top is null, or where it isn't.
#[inline(always)]
pub(crate) fn jump_on_null(state: &mut State, linked: &Linked, wanted: bool, target: u32)
    requires place { state.old.machine.frame.place < 2 ^ 32 - 1 }
    requires next { IsNext linked.now (state_of state.old) (actions.IfNull wanted target) }
    ensures { StepsWithin linked.now (state_of state.old) (state_of state.new) true }
{
    let test = same_truth(wanted, is_null(state.operand(0)));
    let place = place_after(state, target, test);
    state.drop(1, place);
}

/// Jumps.
#[inline(always)]
pub(crate) fn jump(state: &mut State, linked: &Linked, target: u32)
    requires next { IsNext linked.now (state_of state.old) (actions.Go target) }
    ensures { StepsWithin linked.now (state_of state.old) (state_of state.new) true }
{
    let _program = linked;
    state.go_to(target);
}
