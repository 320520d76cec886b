//! A step of a machine that fits the typings of its program: what typing has tested isn't tested again.
//! Instructions that stay in their frame and those of fields have their tests, since they seldom come here.

ghost use Rattle.std.specs.Prelude.{◌≡◌, true, false, ℕ, ◌<◌, ◌-◌, ◌^◌, None, IfOk, OnErr};
ghost use Rattle.vm_model.specs.Actions as actions;
ghost use Rattle.vm_model.specs.Tests as tests;
ghost use Rattle.vm_model.specs.Step as model;
ghost use Rattle.vm_session.specs.State.{state_of};
ghost use Rattle.vm_session.specs.Doing.{Does};
ghost use Rattle.vm_actions.specs.Table.{action_of};
ghost use Rattle.cls_verify.specs.Typing.{AllTypable};
ghost use Rattle.cls_verify.specs.Sound.{Sound};
ghost use Rattle.vm_step.specs.Doing.{Plays};
ghost use Rattle.vm_step.specs.Steady.{is_steady, is_steady_action, next_action};

use crate::calls::call_right;
use crate::needs::bound_room;
use crate::objects::make;
use crate::returns::return_right;
use crate::step::{act_plain, act_read, act_write, next_instr, use_built};
use mg_text::{BadKind, Ending, Memory};
use std::alloc::Global;
use vm_actions::{Action, action_of};
use vm_frames::State;
use vm_model::{Linked, Ports};
use vm_session::Stepped;

/// Makes an object where nothing is wrong with that.
fn make_right(
    state: &mut State,
    alloc: Global,
    linked: &Linked,
    class: u32,
) -> Result<Stepped, Memory>
    requires place { state.old.machine.frame.place < 2 ^ 32 - 1 }
    requires right { tests.wrong linked.now (tests.needs linked.now (state_of state.old)
        (actions.Make class)) (state_of state.old) ≡ None }
    ensures ok { IfOk result (λ s. (me : ℕ) → Plays (λ q. model.act linked.now q (state_of state.old) me
        (actions.Make class)) (state_of state.old) (state_of state.new) s) }
    ensures err { OnErr result (state_of state.new ≡ state_of state.old) }
{
    bound_room(linked, state);
    make(state, alloc, linked, class)
}

/// Acts on an instruction with which nothing is wrong.
fn act_right(
    state: &mut State,
    alloc: Global,
    linked: &Linked,
    ports: &mut Ports,
    me: u32,
    action: Action<'_>,
) -> Result<Stepped, Memory>
    requires place { state.old.machine.frame.place < 2 ^ 32 - 1 }
    requires right { tests.wrong linked.now (tests.needs linked.now (state_of state.old)
        (action_of action)) (state_of state.old) ≡ None }
    ensures ok { IfOk result (λ s. Does (model.act linked.now ports.old (state_of state.old) me
        (action_of action.entry)) (state_of state.old) ports.old (state_of state.new) ports.new s) }
    ensures err { OnErr result (state_of state.new ≡ state_of state.old) }
    ensures err_ports { OnErr result (ports.new ≡ ports.old) }
    ensures steady { OnErr result (is_steady_action (action_of action.entry) ≡ false) }
{
    match action {
        Action::Plain(plain) => act_plain(state, linked, plain),
        Action::Return(sort) => Ok(return_right(state, linked, sort)),
        Action::Read { class, field } => act_read(state, linked, class, field),
        Action::Write { class, field } => act_write(state, linked, class, field),
        Action::Make(class) => make_right(state, alloc, linked, class),
        Action::Call {
            calling,
            class,
            method,
        } => call_right(state, alloc, linked, calling, class, method),
        Action::Use(built) => use_built(state, alloc, linked, ports, me, built),
    }
}

/// Takes a step of the role `me` without the tests that typing has made. After an error nothing has changed.
pub(crate) fn take_typed_step(
    state: &mut State,
    alloc: Global,
    linked: &Linked,
    ports: &mut Ports,
    me: u32,
) -> Result<Stepped, Memory>
    requires typable { AllTypable linked.now }
    requires sound { Sound linked.now (state_of state.old) }
    ensures ok { IfOk result (λ s. Does (model.step linked.now me (state_of state.old) ports.old)
        (state_of state.old) ports.old (state_of state.new) ports.new s) }
    ensures err { OnErr result (state_of state.new ≡ state_of state.old) }
    ensures err_ports { OnErr result (ports.new ≡ ports.old) }
    ensures steady { OnErr result (is_steady (next_action linked.now (state_of state.old)) ≡ false) }
{
    let Some(instr) = next_instr(linked, state) else {
        return Ok(Stepped::Ended(Ending::Bad(BadKind::FellOff)));
    };
    let Some(action) = action_of(instr) else {
        return Ok(Stepped::Ended(Ending::Bad(BadKind::FellOff)));
    };
    act_right(state, alloc, linked, ports, me, action)
}
