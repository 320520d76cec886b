//! Steps of which an object tells, where a machine fits its typings: a protocol method begins, or is left. What is told is numbers.

ghost use Rattle.std.specs.Prelude.{◌≡◌, ◌-◌, ◌<◌, ◌≤◌, ◌^◌, List, length, None, Some, option_map, option_to_list, IfSome};
ghost use Rattle.mg_text.specs.Call.{Name};
ghost use Rattle.vm_model.specs.Actions as actions;
ghost use Rattle.vm_model.specs.Actions.{Action};
ghost use Rattle.vm_model.specs.Step as model;
ghost use Rattle.vm_frames.specs.Seen.{value_in, IsSet};
ghost use Rattle.vm_session.specs.State.{state_of};
ghost use Rattle.vm_actions.specs.Table.{sort_of};
ghost use Rattle.vm_flat.specs.Flat.{IsFlatOf, action_of_flat};
ghost use Rattle.cls_verify.specs.Typing.{AllTypable};
ghost use Rattle.cls_verify.specs.Sound.{Sound};
ghost use Rattle.vm_typed.specs.Next.{IsNext};
ghost use Rattle.vm_typed.specs.Running.{RunsFlat};
ghost use Rattle.vm_typed.specs.Telling.{StepTells, LeavesTelling};

use crate::calls::enter_told;
use vm_actions::Sort;
use vm_flat::{Flat, FlatProgram, method_at, method_there};
use vm_frames::{Callee, Cell, State};
use vm_model::Linked;

/// What is told of a step: a protocol method of an object, by the numbers of its class and its own, begins; or one is left.
#[derive(Clone, Copy)]
pub enum Telling {
    Enter {
        object: u32,
        class: u32,
        method: u32,
    },
    Leave {
        object: u32,
        answer: Option<i32>,
    },
}

/// Calls a method of which the object tells, unless that is null or there is no room for the frame.
fn call_telling(
    state: &mut State,
    linked: &Linked,
    flat: &FlatProgram,
    class: u16,
    method: u32,
) -> Option<Telling>
    requires place { state.old.machine.frame.place < 2 ^ 32 - 1 }
    requires flat { IsFlatOf flat.now linked.now }
    requires next { IsNext linked.now (state_of state.old) (actions.Call actions.Telling class method) }
    ensures { StepTells linked.now (state_of state.old) (state_of state.new) result }
{
    let class = u32::from(class);
    let called = method_there(flat, class, method);
    let count = called.params as usize;
    let Cell::Object(object) = state.operand(count) else {
        return None;
    };
    let callee = Callee {
        class,
        method,
        args: count + 1,
        locals: called.max_locals,
        told: Some(object),
    };
    if !enter_told(state, callee) {
        return None;
    }
    Some(Telling::Enter {
        object,
        class,
        method,
    })
}

/// What a protocol method that is left answers: the int that is returned, where one is.
pub fn answer_of(value: Option<Cell>) -> Option<i32>
    ensures { (texts : List Name) → result ≡ model.answer_of (option_to_list (option_map (value_in texts) value)) }
{
    match value {
        Some(Cell::Int(x)) => Some(x),
        _ => None,
    }
}

/// Leaves the running frame with what is returned, where an object tells of it and a frame waits.
fn leave_telling(state: &mut State, linked: &Linked, value: Option<Cell>) -> Option<Telling>
    requires { IfSome value (IsSet (length state.old.texts)) }
    ensures { LeavesTelling linked.now (state_of state.old) (option_to_list (option_map (value_in state.old.texts) value))
        (state_of state.new) result }
{
    let _program = linked;
    let Some(object) = state.told() else {
        return None;
    };
    let answer = answer_of(value);
    if !state.leave(value) {
        return None;
    }
    Some(Telling::Leave { object, answer })
}

/// Returns from a method of which an object tells, with the value on top.
fn return_telling(state: &mut State, linked: &Linked, sort: Sort) -> Option<Telling>
    requires next { IsNext linked.now (state_of state.old) (actions.Return (Some (sort_of sort))) }
    ensures { StepTells linked.now (state_of state.old) (state_of state.new) result }
{
    let value = state.operand(0);
    leave_telling(state, linked, Some(value))
}

/// Returns from such a method with no value.
fn return_nothing_telling(state: &mut State, linked: &Linked) -> Option<Telling>
    requires next { IsNext linked.now (state_of state.old) (actions.Return None) }
    ensures { StepTells linked.now (state_of state.old) (state_of state.new) result }
{
    leave_telling(state, linked, None)
}

/// Does what an instruction says, where an object tells of it.
fn tell_of(state: &mut State, linked: &Linked, flat: &FlatProgram, instr: &Flat) -> Option<Telling>
    requires place { state.old.machine.frame.place < 2 ^ 32 - 1 }
    requires flat { IsFlatOf flat.now linked.now }
    requires next { (a : Action) → action_of_flat instr.now ≡ Some a → IsNext linked.now (state_of state.old) a }
    ensures { StepTells linked.now (state_of state.old) (state_of state.new) result }
{
    match instr {
        Flat::CallTelling { class, method } => call_telling(state, linked, flat, *class, *method),
        Flat::Return(sort) => return_telling(state, linked, *sort),
        Flat::ReturnNothing => return_nothing_telling(state, linked),
        _ => None,
    }
}

/// Does what the next instruction of a flat code says, where an object tells of it.
fn tell_in(state: &mut State, linked: &Linked, flat: &FlatProgram, code: &[Flat]) -> Option<Telling>
    requires typable { AllTypable linked.now }
    requires flat { IsFlatOf flat.now linked.now }
    requires sound { Sound linked.now (state_of state.old) }
    requires runs { RunsFlat linked.now (state_of state.old) code.now }
    ensures { StepTells linked.now (state_of state.old) (state_of state.new) result }
{
    tell_of(state, linked, flat, &code[state.place() as usize])
}

/// Takes the next step of a typable program where it begins a protocol method of an object or leaves one, and answers what it tells.
/// No test is made of what typing says, and no memory is taken: a null object, want of room and everything else change nothing, and
/// are left to others.
pub fn tell(state: &mut State, linked: &Linked, flat: &FlatProgram) -> Option<Telling>
    requires typable { AllTypable linked.now }
    requires flat { IsFlatOf flat.now linked.now }
    requires sound { Sound linked.now (state_of state.old) }
    ensures { StepTells linked.now (state_of state.old) (state_of state.new) result }
{
    let Some(method) = method_at(flat, state.class(), state.method()) else {
        unreachable!()
    };
    tell_in(state, linked, flat, method.code.as_slice())
}
