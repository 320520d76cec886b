//! The operands of the running frame, by how far they stand from the top.
//! Nothing below those that an instruction takes is touched.

ghost use Rattle.std.specs.Prelude.{◌≡◌, ◌<◌, ◌≤◌, ◌-◌, ◌^◌, ◌++◌, ◌∷◌, [], length, slice_get, slice_index_or, option_map, IfOk, OnOk};
ghost use Rattle.std.specs.Prelude.{OnErr};
ghost use Rattle.vm_model.specs.Tests.{below};
ghost use Rattle.vm_model.specs.Step.{next, with_local};
ghost use Rattle.vm_model.specs.declared.value.Value.TheVariants as values;
ghost use Rattle.vm_frames.specs.Kept.{most};
ghost use Rattle.vm_frames.specs.Seen.{value_in, IsSet};
ghost use Rattle.vm_session.specs.State.{state_of, operands_of};
ghost use Rattle.vm_session.specs.inner.Tops.{at_top, int_in, text_in, int_of_local};

use mg_text::{Memory, Text};
use vm_frames::{Cell, State};

/// The operand so far below the top where it is an int.
#[inline(always)]
pub fn int_at(state: &State, depth: usize) -> Option<i32>
    requires { depth < length (operands_of state.now) }
    ensures { result ≡ int_in (at_top (operands_of state.now) depth) }
{
    match state.operand(depth) {
        Cell::Int(x) => Some(x),
        _ => None,
    }
}

/// The operand so far below the top where it is a text.
#[inline(always)]
pub fn text_at(state: &State, depth: usize) -> Option<&Text>
    requires { depth < length (operands_of state.now) }
    ensures { option_map (λ t. t.now) result ≡ text_in (at_top (operands_of state.now) depth) }
{
    match state.operand(depth) {
        Cell::Text(number) => Some(state.text(number)),
        _ => None,
    }
}

/// The int that a local holds, where it holds one.
#[inline(always)]
pub fn int_of_local(state: &State, local: usize) -> Option<i32>
    ensures { result ≡ int_of_local (slice_get (state_of state.now).frame.locals local) }
{
    match state.held(local) {
        Some(Cell::Int(x)) => Some(x),
        _ => None,
    }
}

/// The number of the text that the next instruction pushes. It is put into the table where the
/// instruction didn't push it before. After an error nothing has changed.
fn number_of(state: &mut State, text: &Text) -> Result<u32, Memory>
    ensures machine { state_of state.new ≡ state_of state.old }
    ensures within { IfOk result (λ n. n < length state.new.texts) }
    ensures says { IfOk result (λ n. slice_index_or state.new.texts n [] ≡ text.now) }
{
    if let Some(number) = state.noted(text) {
        return Ok(number);
    }
    let copy = text.copy()?;
    let number = state.add_text(copy)?;
    state.note(number);
    Ok(number)
}

/// Pushes a text of the program. After an error nothing has changed.
pub fn push_text(state: &mut State, text: &Text) -> Result<(), Memory>
    requires place { state.old.machine.frame.place < 2 ^ 32 - 1 }
    requires room { length (operands_of state.old) < most }
    ensures ok { OnOk result (state_of state.new ≡ next (state_of state.old) (operands_of state.old ++ values.Text text.now ∷ [])) }
    ensures err { OnErr result (state_of state.new ≡ state_of state.old) }
{
    let number = number_of(state, text)?;
    let place = state.place() + 1;
    state.push(Cell::Text(number), place);
    Ok(())
}

/// Puts a text, which is put into the table first, in the place of so many operands. After an error
/// nothing has changed.
pub fn put_text(state: &mut State, count: usize, text: Text) -> Result<(), Memory>
    requires place { state.old.machine.frame.place < 2 ^ 32 - 1 }
    requires some { 0 < count }
    requires within { count ≤ length (operands_of state.old) }
    ensures ok { OnOk result (state_of state.new ≡ next (state_of state.old)
        (below count (operands_of state.old) ++ values.Text text ∷ [])) }
    ensures err { OnErr result (state_of state.new ≡ state_of state.old) }
{
    let number = state.add_text(text)?;
    let place = state.place() + 1;
    state.put(count, Cell::Text(number), place);
    Ok(())
}

/// Puts a value into a local, where there is one of this number.
pub fn set_local(state: &mut State, local: usize, cell: Cell)
    requires { IsSet (length state.old.texts) cell }
    ensures machine { state_of state.new ≡ with_local (state_of state.old) local (value_in state.old.texts cell) }
    ensures texts { state.new.texts ≡ state.old.texts }
{
    if local < state.locals() {
        state.set_local(local, cell);
    }
}
