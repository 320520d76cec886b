//! The members of `Object`, `String`, `System` and `PrintStream`.
//! Each function is one member behind its tests.

ghost use Rattle.std.specs.Prelude.{◌≡◌, ◌<◌, ◌≤◌, ◌-◌, ◌^◌, ◌++◌, ◌∷◌, [], length, IfOk, OnErr};
ghost use Rattle.std.specs.Fmt.{signed_decimal};
ghost use Rattle.vm_model.specs.declared.value.Value.TheVariants as values;
ghost use Rattle.vm_model.specs.Tests.{below};
ghost use Rattle.vm_model.specs.Step as model;
ghost use Rattle.vm_frames.specs.Kept.{most};
ghost use Rattle.vm_frames.specs.Seen.{value_in, IsSet};
ghost use Rattle.vm_session.specs.State.{state_of, operands_of};
ghost use Rattle.vm_step.specs.Doing.{Plays};
ghost use Rattle.vm_session.specs.inner.Tops.{at_top, int_in, text_in};
ghost use Rattle.vm_step.specs.inner.Builts.{inits_by, joins_by, equals_by, shows_int_by, shows_truth_by, prints_by};

use crate::needs::is_null;
use mg_text::{BadKind, Ending, Event, Memory, Text};
use std::alloc::Global;
use vm_frames::{Cell, State};
use vm_session::{Stepped, int_at, is_true, put_text, text_at, truth};

/// The constructor of `Object`.
pub(crate) fn init(state: &mut State) -> Stepped
    requires place { state.old.machine.frame.place < 2 ^ 32 - 1 }
    requires within { 1 ≤ length (operands_of state.old) }
    ensures { Plays (λ q. inits_by q (state_of state.old) (below 1 (operands_of state.old)) (at_top (operands_of state.old) 0))
        (state_of state.old) (state_of state.new) result }
{
    if is_null(state.operand(0)) {
        return Stepped::Ended(Ending::Null);
    }
    let place = state.place() + 1;
    state.drop(1, place);
    Stepped::Went(None)
}

/// One text behind another.
fn joined(alloc: Global, first: &Text, second: &Text) -> Result<Text, Memory>
    ensures { IfOk result (λ t. t ≡ first.now ++ second.now) }
{
    let mut text = String::from_str(alloc, first.as_str())?;
    text.push_str(second.as_str())?;
    Ok(Text::from_string(text))
}

/// `concat`.
pub(crate) fn concat(state: &mut State, alloc: Global) -> Result<Stepped, Memory>
    requires place { state.old.machine.frame.place < 2 ^ 32 - 1 }
    requires within { 2 ≤ length (operands_of state.old) }
    ensures ok { IfOk result (λ s. Plays (λ q. joins_by q (state_of state.old) (below 2 (operands_of state.old))
        (text_in (at_top (operands_of state.old) 1)) (text_in (at_top (operands_of state.old) 0))) (state_of state.old)
        (state_of state.new) s) }
    ensures err { OnErr result (state_of state.new ≡ state_of state.old) }
{
    let Some(first) = text_at(state, 1) else {
        return Ok(Stepped::Ended(Ending::Null));
    };
    let Some(second) = text_at(state, 0) else {
        return Ok(Stepped::Ended(Ending::Null));
    };
    let text = joined(alloc, first, second)?;
    put_text(state, 2, text)?;
    Ok(Stepped::Went(None))
}

/// Whether a value is this text.
#[inline(always)]
pub(crate) fn is_text(state: &State, text: &Text, cell: Cell) -> bool
    requires { IsSet (length state.now.texts) cell }
    ensures { result ≡ model.same_text text.now (value_in state.now.texts cell) }
{
    match cell {
        Cell::Text(other) => text.as_str() == state.text(other).as_str(),
        _ => false,
    }
}

/// `equals`.
pub(crate) fn equals(state: &mut State) -> Stepped
    requires place { state.old.machine.frame.place < 2 ^ 32 - 1 }
    requires within { 2 ≤ length (operands_of state.old) }
    ensures { Plays (λ q. equals_by q (state_of state.old) (below 2 (operands_of state.old))
        (text_in (at_top (operands_of state.old) 1)) (at_top (operands_of state.old) 0)) (state_of state.old) (state_of state.new) result }
{
    let Some(text) = text_at(state, 1) else {
        return Stepped::Ended(Ending::Null);
    };
    let same = truth(is_text(state, text, state.operand(0)));
    let place = state.place() + 1;
    state.put(2, same, place);
    Stepped::Went(None)
}

/// An int in decimal.
fn decimal(alloc: Global, x: i32) -> Result<Text, Memory>
    ensures { IfOk result (λ t. t ≡ signed_decimal x) }
{
    let text = x.to_string(alloc)?;
    Ok(Text::from_string(text))
}

/// `valueOf(int)`.
pub(crate) fn show_int(state: &mut State, alloc: Global) -> Result<Stepped, Memory>
    requires place { state.old.machine.frame.place < 2 ^ 32 - 1 }
    requires within { 1 ≤ length (operands_of state.old) }
    ensures ok { IfOk result (λ s. Plays (λ q. shows_int_by q (state_of state.old) (below 1 (operands_of state.old))
        (int_in (at_top (operands_of state.old) 0))) (state_of state.old) (state_of state.new) s) }
    ensures err { OnErr result (state_of state.new ≡ state_of state.old) }
{
    let Some(x) = int_at(state, 0) else {
        return Ok(Stepped::Ended(Ending::Bad(BadKind::Kind)));
    };
    let text = decimal(alloc, x)?;
    put_text(state, 1, text)?;
    Ok(Stepped::Went(None))
}

/// The text of a truth value.
fn truth_text(alloc: Global, truth: bool) -> Result<Text, Memory>
    ensures { IfOk result (λ t. t ≡ model.truth_text truth) }
{
    if truth {
        Text::of(alloc, "true")
    } else {
        Text::of(alloc, "false")
    }
}

/// `valueOf(boolean)`.
pub(crate) fn show_truth(state: &mut State, alloc: Global) -> Result<Stepped, Memory>
    requires place { state.old.machine.frame.place < 2 ^ 32 - 1 }
    requires within { 1 ≤ length (operands_of state.old) }
    ensures ok { IfOk result (λ s. Plays (λ q. shows_truth_by q (state_of state.old) (below 1 (operands_of state.old))
        (int_in (at_top (operands_of state.old) 0))) (state_of state.old) (state_of state.new) s) }
    ensures err { OnErr result (state_of state.new ≡ state_of state.old) }
{
    let Some(x) = int_at(state, 0) else {
        return Ok(Stepped::Ended(Ending::Bad(BadKind::Kind)));
    };
    let text = truth_text(alloc, is_true(x))?;
    put_text(state, 1, text)?;
    Ok(Stepped::Went(None))
}

/// The field `System.out`.
pub(crate) fn push_out(state: &mut State) -> Stepped
    requires place { state.old.machine.frame.place < 2 ^ 32 - 1 }
    requires room { length (operands_of state.old) < most }
    ensures { Plays (λ q. model.goes q (model.next (state_of state.old)
        (operands_of state.old ++ values.Out ∷ []))) (state_of state.old) (state_of state.new) result }
{
    let place = state.place() + 1;
    state.push(Cell::Out, place);
    Stepped::Went(None)
}

/// What is printed of a value.
fn text_or_null(state: &State, alloc: Global, cell: Cell) -> Result<Text, Memory>
    requires { IsSet (length state.now.texts) cell }
    ensures { IfOk result (λ t. t ≡ model.text_or_null (value_in state.now.texts cell)) }
{
    match cell {
        Cell::Text(text) => state.text(text).copy(),
        _ => Text::of(alloc, "null"),
    }
}

/// `println`.
pub(crate) fn print(state: &mut State, alloc: Global) -> Result<Stepped, Memory>
    requires place { state.old.machine.frame.place < 2 ^ 32 - 1 }
    requires within { 2 ≤ length (operands_of state.old) }
    ensures ok { IfOk result (λ s. Plays (λ q. prints_by q (state_of state.old) (below 2 (operands_of state.old))
        (at_top (operands_of state.old) 1) (at_top (operands_of state.old) 0)) (state_of state.old) (state_of state.new) s) }
    ensures err { OnErr result (state_of state.new ≡ state_of state.old) }
{
    match state.operand(1) {
        Cell::Out => {}
        _ => return Ok(Stepped::Ended(Ending::Null)),
    }
    let text = text_or_null(state, alloc, state.operand(0))?;
    let place = state.place() + 1;
    state.drop(2, place);
    Ok(Stepped::Went(Some(Event::Print(text))))
}
