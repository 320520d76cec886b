//! Constants, locals, the stack, arithmetic and jumps.
//! Each function is one action behind its tests.

ghost use Rattle.std.specs.Prelude.{◌≡◌, ◌+◌, ◌<◌, ◌≤◌, ◌-◌, if◌then◌else◌, ◌^◌, ◌++◌, ◌∷◌, [], false, length, slice_get, IfOk, OnErr};
ghost use Rattle.vm_model.specs.Tests.{below};
ghost use Rattle.vm_model.specs.Step as model;
ghost use Rattle.vm_frames.specs.Kept.{most};
ghost use Rattle.vm_frames.specs.Seen.{value_in, IsSet};
ghost use Rattle.vm_session.specs.State.{state_of, operands_of};
ghost use Rattle.vm_actions.specs.Table.{constant_of, operation_of, comparison_of};
ghost use Rattle.vm_model.specs.Actions.{Push};
ghost use Rattle.vm_step.specs.Steady.{is_steady_action};
ghost use Rattle.vm_step.specs.Doing.{Plays};
ghost use Rattle.vm_session.specs.inner.Tops.{at_top, int_in, int_of_local};
ghost use Rattle.vm_step.specs.inner.Acts.{stored_by, doubled_by, swapped_by, computes_by, negates_by, increased_by, on_zero_by};
ghost use Rattle.vm_step.specs.inner.Acts.{on_both_by, on_null_by, switches_by};

use crate::needs::is_null;
use mg_text::{BadKind, Ending, Memory};
use vm_actions::{Comparison, Constant, Operation, added, compares, computed, negated, switched};
use vm_frames::{Cell, State};
use vm_session::{Stepped, broken, int_at, int_of_local, push_text, set_local};

/// Pushes a value.
fn push(state: &mut State, cell: Cell) -> Stepped
    requires place { state.old.machine.frame.place < 2 ^ 32 - 1 }
    requires room { length (operands_of state.old) < most }
    requires set { IsSet (length state.old.texts) cell }
    ensures { Plays (λ q. model.goes q (model.next (state_of state.old) (operands_of state.old ++ value_in state.old.texts cell ∷ [])))
        (state_of state.old) (state_of state.new) result }
{
    let place = state.place() + 1;
    state.push(cell, place);
    Stepped::Went(None)
}

/// Pushes a constant.
pub(crate) fn push_constant(state: &mut State, constant: Constant<'_>) -> Result<Stepped, Memory>
    requires place { state.old.machine.frame.place < 2 ^ 32 - 1 }
    requires room { length (operands_of state.old) < most }
    ensures ok { IfOk result (λ s. Plays (λ q. model.goes q (model.next (state_of state.old)
        (operands_of state.old ++ constant_of constant.entry ∷ []))) (state_of state.old) (state_of state.new) s) }
    ensures err { OnErr result (state_of state.new ≡ state_of state.old) }
    ensures steady { OnErr result (is_steady_action (Push (constant_of constant.entry)) ≡ false) }
{
    match constant {
        Constant::Int(x) => Ok(push(state, Cell::Int(x))),
        Constant::Null => Ok(push(state, Cell::Null)),
        Constant::Text(text) => {
            push_text(state, text.as_ref())?;
            Ok(Stepped::Went(None))
        }
    }
}

/// Pushes what a local holds.
pub(crate) fn load(state: &mut State, local: u8) -> Stepped
    requires place { state.old.machine.frame.place < 2 ^ 32 - 1 }
    requires room { length (operands_of state.old) < most }
    ensures { Plays (λ q. model.pushed q (state_of state.old) (operands_of state.old)
        (slice_get (state_of state.old).frame.locals local)) (state_of state.old) (state_of state.new) result }
{
    let Some(cell) = state.held(usize::from(local)) else {
        return broken(BadKind::Kind);
    };
    push(state, cell)
}

/// Takes the operand on top into a local.
pub(crate) fn store(state: &mut State, local: u8) -> Stepped
    requires place { state.old.machine.frame.place < 2 ^ 32 - 1 }
    requires within { 1 ≤ length (operands_of state.old) }
    ensures { Plays (λ q. stored_by q (state_of state.old) local (below 1 (operands_of state.old))
        (at_top (operands_of state.old) 0)) (state_of state.old) (state_of state.new) result }
{
    let cell = state.operand(0);
    set_local(state, usize::from(local), cell);
    let place = state.place() + 1;
    state.drop(1, place);
    Stepped::Went(None)
}

/// Drops the operand on top.
pub(crate) fn pop(state: &mut State) -> Stepped
    requires place { state.old.machine.frame.place < 2 ^ 32 - 1 }
    requires within { 1 ≤ length (operands_of state.old) }
    ensures { Plays (λ q. model.goes q (model.next (state_of state.old) (below 1 (operands_of state.old)))) (state_of state.old)
        (state_of state.new) result }
{
    let place = state.place() + 1;
    state.drop(1, place);
    Stepped::Went(None)
}

/// Pushes the operand on top once more.
pub(crate) fn double(state: &mut State) -> Stepped
    requires place { state.old.machine.frame.place < 2 ^ 32 - 1 }
    requires within { 1 ≤ length (operands_of state.old) }
    requires room { length (operands_of state.old) < most }
    ensures { Plays (λ q. doubled_by q (state_of state.old) (below 1 (operands_of state.old))
        (at_top (operands_of state.old) 0)) (state_of state.old) (state_of state.new) result }
{
    let cell = state.operand(0);
    let place = state.place() + 1;
    state.push(cell, place);
    Stepped::Went(None)
}

/// Exchanges the two operands on top.
pub(crate) fn swap(state: &mut State) -> Stepped
    requires place { state.old.machine.frame.place < 2 ^ 32 - 1 }
    requires within { 2 ≤ length (operands_of state.old) }
    requires room { length (operands_of state.old) ≤ most }
    ensures { Plays (λ q. swapped_by q (state_of state.old) (below 2 (operands_of state.old)) (at_top (operands_of state.old) 1)
        (at_top (operands_of state.old) 0)) (state_of state.old) (state_of state.new) result }
{
    let top = state.operand(0);
    let under = state.operand(1);
    let place = state.place();
    state.put(2, top, place);
    state.push(under, place + 1);
    Stepped::Went(None)
}

/// Computes the two ints on top.
pub(crate) fn compute(state: &mut State, operation: Operation) -> Stepped
    requires place { state.old.machine.frame.place < 2 ^ 32 - 1 }
    requires within { 2 ≤ length (operands_of state.old) }
    ensures { Plays (λ q. computes_by q (state_of state.old) (operation_of operation) (below 2 (operands_of state.old))
        (int_in (at_top (operands_of state.old) 1)) (int_in (at_top (operands_of state.old) 0))) (state_of state.old)
        (state_of state.new) result }
{
    let Some(x) = int_at(state, 1) else {
        return broken(BadKind::Kind);
    };
    let Some(y) = int_at(state, 0) else {
        return broken(BadKind::Kind);
    };
    let Some(z) = computed(operation, x, y) else {
        return Stepped::Ended(Ending::Zero);
    };
    let place = state.place() + 1;
    state.put(2, Cell::Int(z), place);
    Stepped::Went(None)
}

/// Negates the int on top.
pub(crate) fn negate(state: &mut State) -> Stepped
    requires place { state.old.machine.frame.place < 2 ^ 32 - 1 }
    requires within { 1 ≤ length (operands_of state.old) }
    ensures { Plays (λ q. negates_by q (state_of state.old) (below 1 (operands_of state.old))
        (int_in (at_top (operands_of state.old) 0))) (state_of state.old) (state_of state.new) result }
{
    let Some(x) = int_at(state, 0) else {
        return broken(BadKind::Kind);
    };
    let place = state.place() + 1;
    state.put(1, Cell::Int(negated(x)), place);
    Stepped::Went(None)
}

/// Adds to the int of a local.
pub(crate) fn increase(state: &mut State, local: u8, by: &i8) -> Stepped
    requires place { state.old.machine.frame.place < 2 ^ 32 - 1 }
    ensures { Plays (λ q. increased_by q (state_of state.old) (operands_of state.old) local by.now
        (int_of_local (slice_get (state_of state.old).frame.locals local))) (state_of state.old) (state_of state.new) result }
{
    let local = usize::from(local);
    let Some(x) = int_of_local(state, local) else {
        return broken(BadKind::Kind);
    };
    set_local(state, local, Cell::Int(added(x, *by)));
    let place = state.place() + 1;
    state.go_to(place);
    Stepped::Went(None)
}

/// The target where the test holds, else the next instruction.
pub(crate) fn place_after(state: &State, target: u32, test: bool) -> u32
    requires { state.now.machine.frame.place < 2 ^ 32 - 1 }
    ensures { result ≡ (if test then target else state.now.machine.frame.place + 1) }
{
    if test { target } else { state.place() + 1 }
}

/// Jumps where the int on top compares so with 0.
pub(crate) fn jump_on_zero(state: &mut State, comparison: Comparison, target: u32) -> Stepped
    requires place { state.old.machine.frame.place < 2 ^ 32 - 1 }
    requires within { 1 ≤ length (operands_of state.old) }
    ensures { Plays (λ q. on_zero_by q (state_of state.old) (comparison_of comparison) target (below 1 (operands_of state.old))
        (int_in (at_top (operands_of state.old) 0))) (state_of state.old) (state_of state.new) result }
{
    let Some(x) = int_at(state, 0) else {
        return broken(BadKind::Kind);
    };
    let place = place_after(state, target, compares(comparison, x, 0));
    state.drop(1, place);
    Stepped::Went(None)
}

/// Jumps where the two ints on top compare so.
pub(crate) fn jump_on_both(state: &mut State, comparison: Comparison, target: u32) -> Stepped
    requires place { state.old.machine.frame.place < 2 ^ 32 - 1 }
    requires within { 2 ≤ length (operands_of state.old) }
    ensures { Plays (λ q. on_both_by q (state_of state.old) (comparison_of comparison) target (below 2 (operands_of state.old))
        (int_in (at_top (operands_of state.old) 1)) (int_in (at_top (operands_of state.old) 0))) (state_of state.old)
        (state_of state.new) result }
{
    let Some(x) = int_at(state, 1) else {
        return broken(BadKind::Kind);
    };
    let Some(y) = int_at(state, 0) else {
        return broken(BadKind::Kind);
    };
    let place = place_after(state, target, compares(comparison, x, y));
    state.drop(2, place);
    Stepped::Went(None)
}

pub(crate) fn same_truth(wanted: bool, truth: bool) -> bool
    ensures { result ≡ model.same_truth wanted truth }
{
    if wanted { truth } else { !truth }
}

/// Jumps where the reference on top is null, or where it isn't.
pub(crate) fn jump_on_null(state: &mut State, wanted: bool, target: u32) -> Stepped
    requires place { state.old.machine.frame.place < 2 ^ 32 - 1 }
    requires within { 1 ≤ length (operands_of state.old) }
    ensures { Plays (λ q. on_null_by q (state_of state.old) wanted target (below 1 (operands_of state.old))
        (at_top (operands_of state.old) 0)) (state_of state.old) (state_of state.new) result }
{
    let test = same_truth(wanted, is_null(state.operand(0)));
    let place = place_after(state, target, test);
    state.drop(1, place);
    Stepped::Went(None)
}

/// Jumps.
pub(crate) fn jump(state: &mut State, target: u32) -> Stepped
    ensures { Plays (λ q. model.goes q (model.at_place (state_of state.old) target (operands_of state.old))) (state_of state.old)
        (state_of state.new) result }
{
    state.go_to(target);
    Stepped::Went(None)
}

/// Jumps by the int on top.
pub(crate) fn switch(state: &mut State, default: u32, low: &i32, targets: &[u32]) -> Stepped
    requires { 1 ≤ length (operands_of state.old) }
    ensures { Plays (λ q. switches_by q (state_of state.old) default low.now targets.now (below 1 (operands_of state.old))
        (int_in (at_top (operands_of state.old) 0))) (state_of state.old) (state_of state.new) result }
{
    let Some(x) = int_at(state, 0) else {
        return broken(BadKind::Kind);
    };
    state.drop(1, switched(default, *low, targets, x));
    Stepped::Went(None)
}
