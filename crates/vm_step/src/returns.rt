//! Returns from methods.
//! The frame that goes on is the nearest of those that wait.

ghost use Rattle.std.specs.Prelude.{◌≡◌, ℕ, ◌≤◌, List, length, option_map, option_to_list, None, IfSome};
ghost use Rattle.vm_model.specs.Descriptors.{type_view};
ghost use Rattle.vm_model.specs.Actions as actions;
ghost use Rattle.vm_model.specs.Tests as tests;
ghost use Rattle.vm_model.specs.Step as model;
ghost use Rattle.mg_text.specs.Call.{Name};
ghost use Rattle.vm_frames.specs.Seen.{value_in, IsSet};
ghost use Rattle.vm_session.specs.State.{state_of};
ghost use Rattle.vm_actions.specs.Table.{sort_of};
ghost use Rattle.vm_step.specs.Needing.{wants_of, needs_of};
ghost use Rattle.vm_step.specs.Doing.{Plays};

use crate::needs::{Needs, Want, taking, wrong};
use crate::program::{max_stack, method_at, result_type};
use mg_text::{BadKind, Ending, Event};
use vm_actions::Sort;
use vm_frames::{Cell, State};
use vm_model::{FieldType, Linked};
use vm_session::Stepped;
use vm_typed::answer_of;

/// Whether a return is of the kind that the descriptor says.
fn is_sort(sort: Option<Sort>, answer: Option<FieldType<'_>>) -> bool
    ensures { result ≡ tests.is_sort (option_map sort_of sort) (option_map type_view answer.entry) }
{
    match sort {
        None => answer.is_none(),
        Some(_sort) => answer.is_some(),
    }
}

/// How many values a return gives.
fn given(sort: Option<Sort>) -> usize
    ensures value { result ≡ length (tests.returned (option_map sort_of sort) None) }
    ensures bound { result ≤ 1 }
{
    match sort {
        None => 0,
        Some(_sort) => 1,
    }
}

/// The same needs, with the room of the frame that goes on.
fn returning<'a>(
    linked: &Linked,
    state: &State,
    sort: Option<Sort>,
    mut needs: Needs<'a>,
) -> Needs<'a>
    ensures { needs_of result ≡ tests.returning linked.now (state_of state.now).callers
        (option_map sort_of sort) (needs_of needs.entry) }
{
    let Some(frame) = state.waiting() else {
        needs.operands = 0;
        needs.max_stack = 0;
        return needs;
    };
    needs.operands = frame.operands + given(sort);
    needs.max_stack = max_stack(method_at(linked, frame.class, frame.method));
    needs
}

/// What is wrong with a return that takes these.
fn check_taking(
    linked: &Linked,
    state: &State,
    sort: Option<Sort>,
    answer: Option<FieldType<'_>>,
    takes: &[Want<'_>],
) -> Option<BadKind>
    requires { wants_of takes.now ≡ tests.returned (option_map sort_of sort) (option_map type_view answer) }
    ensures { result ≡ tests.wrong linked.now
        (tests.return_needs linked.now (state_of state.now) (option_map sort_of sort)
        (option_map type_view answer.entry)) (state_of state.now) }
{
    let mut needs = taking(linked, state, takes, 0);
    needs.returns = is_sort(sort, answer);
    let needs = returning(linked, state, sort, needs);
    wrong(linked, state, &needs)
}

/// What is wrong with a return.
fn check(
    linked: &Linked,
    state: &State,
    sort: Option<Sort>,
    answer: Option<FieldType<'_>>,
) -> Option<BadKind>
    ensures { result ≡ tests.wrong linked.now
        (tests.return_needs linked.now (state_of state.now) (option_map sort_of sort)
        (option_map type_view answer.entry)) (state_of state.now) }
{
    match sort {
        None => check_taking(linked, state, sort, answer, &[]),
        Some(kind) => {
            let takes = [Want::Returned(kind, answer)];
            check_taking(linked, state, sort, answer, &takes)
        }
    }
}

/// The event of a method that is left, where it tells.
fn left(told: Option<u32>, value: Option<Cell>) -> Option<Event>
    ensures { (texts : List Name) → result ≡ model.left told (option_to_list (option_map (value_in texts) value)) }
{
    match told {
        Some(object) => Some(Event::Leave {
            object,
            answer: answer_of(value),
        }),
        None => None,
    }
}

/// Leaves the running frame with what is returned; the return of `main` ends the run.
fn leave(state: &mut State, value: Option<Cell>) -> Stepped
    requires { IfSome value (IsSet (length state.old.texts)) }
    ensures { Plays (λ q. model.returns q (state_of state.old) (option_to_list (option_map (value_in state.old.texts) value))
        (state_of state.old).callers) (state_of state.old) (state_of state.new) result }
{
    let event = left(state.told(), value);
    if state.leave(value) {
        Stepped::Went(event)
    } else {
        Stepped::Ended(Ending::Done)
    }
}

/// Returns where nothing is wrong with that, with a value of this sort or none.
#[inline(always)]
pub(crate) fn return_right(state: &mut State, linked: &Linked, sort: Option<Sort>) -> Stepped
    requires { tests.wrong linked.now (tests.needs linked.now (state_of state.old)
        (actions.Return (option_map sort_of sort))) (state_of state.old) ≡ None }
    ensures { (me : ℕ) → Plays (λ q. model.act linked.now q (state_of state.old) me
        (actions.Return (option_map sort_of sort))) (state_of state.old) (state_of state.new) result }
{
    let _program = linked;
    match sort {
        None => leave(state, None),
        Some(_sort) => {
            let value = state.operand(0);
            leave(state, Some(value))
        }
    }
}

/// Returns, with a value of this sort or none.
pub(crate) fn return_from(state: &mut State, linked: &Linked, sort: Option<Sort>) -> Stepped
    ensures { (me : ℕ) → Plays (λ q. model.act linked.now q (state_of state.old) me
        (actions.Return (option_map sort_of sort))) (state_of state.old) (state_of state.new) result }
{
    let method = method_at(linked, state.class(), state.method());
    let answer = result_type(method);
    if let Some(kind) = check(linked, state, sort, answer) {
        return Stepped::Ended(Ending::Bad(kind));
    }
    return_right(state, linked, sort)
}
