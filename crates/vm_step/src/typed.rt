//! Steps of typable programs, those of their flat code without tests, and those between them with the tests.

ghost use Rattle.std.specs.Prelude.{◌≡◌, ◌≤◌};
ghost use Rattle.vm_session.specs.State.{state_of};
ghost use Rattle.vm_flat.specs.Flat.{IsFlatOf};
ghost use Rattle.cls_verify.specs.Typing.{AllTypable};
ghost use Rattle.cls_verify.specs.Sound.{Sound};
ghost use Rattle.vm_step.specs.Alone.{AllAlone};

use crate::quiet::steps_alone;
use vm_flat::FlatProgram;
use vm_frames::State;
use vm_model::Linked;
use vm_typed::next_has_form;

/// Takes steps that look at no message and tell nothing, at most so many, and answers how many they were. Where the next instruction
/// has no flat form, one step is taken with the tests; where it has one, or that isn't taken either, it ends.
pub(crate) fn steps_typed(state: &mut State, linked: &Linked, flat: &FlatProgram, most: u32) -> u32
    requires typable { AllTypable linked.now }
    requires flat { IsFlatOf flat.now linked.now }
    requires sound { Sound linked.now (state_of state.old) }
    ensures most { result ≤ most }
    ensures steps { AllAlone linked.now (state_of state.old) result (state_of state.new) }
    ensures sound { Sound linked.now (state_of state.new) }
{
    let mut taken = 0;
    while taken < most {
        taken += vm_typed::steps_typed(state, linked, flat, most - taken);
        if taken == most || next_has_form(state, flat) {
            break;
        }
        if steps_alone(state, linked, 1) == 0 {
            break;
        }
        taken += 1;
    }
    taken
}
