//! The loop: one dispatch for each step, and no test that typing has made.

ghost use Rattle.std.specs.Prelude.{◌≡◌, ◌-◌, ◌<◌, ◌≤◌, ◌^◌, if◌then◌else◌, Some, None, option_map};
ghost use Rattle.vm_model.specs.Actions.{Action};
ghost use Rattle.vm_model.specs.Tests.{max_stack_in, method_of_frame};
ghost use Rattle.vm_frames.specs.Kept as kept;
ghost use Rattle.vm_session.specs.State.{state_of};
ghost use Rattle.vm_flat.specs.Flat.{IsFlatOf, action_of_flat};
ghost use Rattle.cls_verify.specs.Typing.{AllTypable};
ghost use Rattle.cls_verify.specs.Sound.{Sound};
ghost use Rattle.vm_typed.specs.Alone.{AllAlone};
ghost use Rattle.vm_typed.specs.Next.{IsNext};
ghost use Rattle.vm_typed.specs.Running.{RunsFlat, StepsTo, has_form, next_has_form};

use crate::calls::{call_silent, call_static, return_nothing, return_value};
use crate::fields::{read, write};
use crate::within::{
    compute, double, increase, jump, jump_on_both, jump_on_null, jump_on_zero, load, negate, pop,
    push, push_out, store, swap,
};
use vm_actions::{Comparison, Operation};
use vm_flat::{Flat, FlatProgram, method_at};
use vm_frames::{Cell, State};
use vm_model::Linked;

/// The code that runs, where a step stayed in it.
#[inline(always)]
fn kept(code: &[Flat], stayed: bool) -> Option<&[Flat]>
    ensures { option_map (λ c. c.now) result ≡ (if stayed then Some code.now else None) }
{
    if stayed { Some(code) } else { None }
}

/// Does what the next instruction says, and answers the code that runs then. A divisor of zero, a null object, want of room and what
/// flat instructions don't say change nothing.
#[inline(always)]
fn act<'a>(
    state: &mut State,
    linked: &Linked,
    flat: &'a FlatProgram,
    code: &'a [Flat],
    instr: &Flat,
) -> Option<&'a [Flat]>
    requires place { state.old.machine.frame.place < 2 ^ 32 - 1 }
    requires flat { IsFlatOf flat.now linked.now }
    requires room { max_stack_in (method_of_frame linked.now (state_of state.old).frame) ≤ kept.most }
    requires runs { RunsFlat linked.now (state_of state.old) code.now }
    requires next { (a : Action) → action_of_flat instr.now ≡ Some a → IsNext linked.now (state_of state.old) a }
    ensures { StepsTo linked.now (state_of state.old) (state_of state.new) (option_map (λ c. c.now) result) }
{
    match instr {
        Flat::Int(x) => {
            push(state, linked, Cell::Int(*x));
            Some(code)
        }
        Flat::Null => {
            push(state, linked, Cell::Null);
            Some(code)
        }
        Flat::Load(sort, local) => {
            load(state, linked, *sort, *local);
            Some(code)
        }
        Flat::Store(sort, local) => {
            store(state, linked, *sort, *local);
            Some(code)
        }
        Flat::Pop => {
            pop(state, linked);
            Some(code)
        }
        Flat::Double => {
            double(state, linked);
            Some(code)
        }
        Flat::Swap => {
            swap(state, linked);
            Some(code)
        }
        Flat::Plus => kept(code, compute(state, linked, Operation::Plus)),
        Flat::Minus => kept(code, compute(state, linked, Operation::Minus)),
        Flat::Times => kept(code, compute(state, linked, Operation::Times)),
        Flat::Divide => kept(code, compute(state, linked, Operation::Divide)),
        Flat::Remain => kept(code, compute(state, linked, Operation::Remain)),
        Flat::Negate => {
            negate(state, linked);
            Some(code)
        }
        Flat::Increase(local, by) => {
            increase(state, linked, *local, *by);
            Some(code)
        }
        Flat::IfZeroEqual(target) => {
            jump_on_zero(state, linked, Comparison::Equal, *target);
            Some(code)
        }
        Flat::IfZeroUnequal(target) => {
            jump_on_zero(state, linked, Comparison::Unequal, *target);
            Some(code)
        }
        Flat::IfZeroLess(target) => {
            jump_on_zero(state, linked, Comparison::Less, *target);
            Some(code)
        }
        Flat::IfZeroAtLeast(target) => {
            jump_on_zero(state, linked, Comparison::AtLeast, *target);
            Some(code)
        }
        Flat::IfZeroGreater(target) => {
            jump_on_zero(state, linked, Comparison::Greater, *target);
            Some(code)
        }
        Flat::IfZeroAtMost(target) => {
            jump_on_zero(state, linked, Comparison::AtMost, *target);
            Some(code)
        }
        Flat::IfBothEqual(target) => {
            jump_on_both(state, linked, Comparison::Equal, *target);
            Some(code)
        }
        Flat::IfBothUnequal(target) => {
            jump_on_both(state, linked, Comparison::Unequal, *target);
            Some(code)
        }
        Flat::IfBothLess(target) => {
            jump_on_both(state, linked, Comparison::Less, *target);
            Some(code)
        }
        Flat::IfBothAtLeast(target) => {
            jump_on_both(state, linked, Comparison::AtLeast, *target);
            Some(code)
        }
        Flat::IfBothGreater(target) => {
            jump_on_both(state, linked, Comparison::Greater, *target);
            Some(code)
        }
        Flat::IfBothAtMost(target) => {
            jump_on_both(state, linked, Comparison::AtMost, *target);
            Some(code)
        }
        Flat::IfNull(target) => {
            jump_on_null(state, linked, true, *target);
            Some(code)
        }
        Flat::IfNotNull(target) => {
            jump_on_null(state, linked, false, *target);
            Some(code)
        }
        Flat::Go(target) => {
            jump(state, linked, *target);
            Some(code)
        }
        Flat::ReturnNothing => return_nothing(state, linked, flat),
        Flat::Return(sort) => return_value(state, linked, flat, *sort),
        Flat::Read { class, field } => kept(code, read(state, linked, *class, *field)),
        Flat::Write { class, field } => kept(code, write(state, linked, *class, *field)),
        Flat::CallStatic { class, method } => call_static(state, linked, flat, *class, *method),
        Flat::CallSilent { class, method } => call_silent(state, linked, flat, *class, *method),
        Flat::Out => {
            push_out(state, linked);
            Some(code)
        }
        Flat::CallTelling { .. } => None,
        Flat::Other => None,
    }
}

/// Takes the next step, and answers the code that runs then; or nothing changes.
#[inline(always)]
fn step<'a>(
    state: &mut State,
    linked: &Linked,
    flat: &'a FlatProgram,
    code: &'a [Flat],
) -> Option<&'a [Flat]>
    requires typable { AllTypable linked.now }
    requires flat { IsFlatOf flat.now linked.now }
    requires sound { Sound linked.now (state_of state.old) }
    requires runs { RunsFlat linked.now (state_of state.old) code.now }
    ensures { StepsTo linked.now (state_of state.old) (state_of state.new) (option_map (λ c. c.now) result) }
{
    act(state, linked, flat, code, &code[state.place() as usize])
}

/// Takes steps of a typable program that look at no message and tell nothing, at most so many, without tests of what typing says; and
/// answers how many they were. It stops at the first that flat code doesn't have, that a zero, a null or a protocol method stops, or
/// for whose frame there is no room.
pub fn steps_typed(state: &mut State, linked: &Linked, flat: &FlatProgram, most: u32) -> u32
    requires typable { AllTypable linked.now }
    requires flat { IsFlatOf flat.now linked.now }
    requires sound { Sound linked.now (state_of state.old) }
    ensures most { result ≤ most }
    ensures steps { AllAlone linked.now (state_of state.old) result (state_of state.new) }
    ensures sound { Sound linked.now (state_of state.new) }
{
    let Some(first) = method_at(flat, state.class(), state.method()) else {
        unreachable!()
    };
    let mut code = first.code.as_slice();
    for taken in 0..most {
        match step(state, linked, flat, code) {
            Some(next) => code = next,
            None => return taken,
        }
    }
    most
}

/// The flat form of an instruction is more than that it is another one.
fn has_form(instr: Option<&Flat>) -> bool
    ensures { result ≡ has_form (option_map (λ f. f.now) instr.entry) }
{
    match instr {
        None | Some(Flat::Other) => false,
        Some(_) => true,
    }
}

/// Whether the next instruction has a flat form.
pub fn next_has_form(state: &State, flat: &FlatProgram) -> bool
    ensures { result ≡ next_has_form flat.now (state_of state.now) }
{
    match method_at(flat, state.class(), state.method()) {
        Some(method) => has_form(method.code.as_slice().get(state.place() as usize)),
        None => false,
    }
}
