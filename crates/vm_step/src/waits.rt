//! For whose message the next instruction waits.
//! Nothing is allocated and nothing changes.

ghost use Rattle.std.specs.Prelude.{◌≡◌, ◌≤◌, length};
ghost use Rattle.vm_model.specs.Actions.{Use};
ghost use Rattle.vm_model.specs.Step as model;
ghost use Rattle.vm_session.specs.State.{state_of, operands_of};
ghost use Rattle.vm_actions.specs.Table.{action_of};
ghost use Rattle.vm_step.specs.Doing.{waits_in};
ghost use Rattle.vm_session.specs.inner.Tops.{at_top, text_in};
ghost use Rattle.vm_step.specs.inner.Awaiting.{awaited, awaited_in, awaited_with, used_in};

use crate::step::{check_built, next_instr};
use vm_actions::{Action, action_of};
use vm_frames::State;
use vm_model::{Built, Linked, Ports};
use vm_session::{other_role, text_at};

/// The role of this name, where it has sent nothing that wasn't taken.
fn awaited(ports: &Ports, me: u32, peer: &str) -> Option<u32>
    ensures { result ≡ awaited ports.now me peer.now }
{
    let from = other_role(ports, me, peer)?;
    match ports.first(from, me) {
        Some(_message) => None,
        None => Some(from),
    }
}

/// For whom a look waits.
fn look_waits(state: &State, ports: &Ports, me: u32) -> Option<u32>
    requires { 1 ≤ length (operands_of state.now) }
    ensures { result ≡ awaited_in ports.now me (text_in (at_top (operands_of state.now) 0)) }
{
    let peer = text_at(state, 0)?;
    awaited(ports, me, peer.as_str())
}

/// For whom a take waits.
fn take_waits(state: &State, ports: &Ports, me: u32) -> Option<u32>
    requires { 2 ≤ length (operands_of state.now) }
    ensures { result ≡ awaited_with ports.now me (text_in (at_top (operands_of state.now) 1)) (text_in (at_top (operands_of state.now) 0)) }
{
    let peer = text_at(state, 1)?;
    let _label = text_at(state, 0)?;
    awaited(ports, me, peer.as_str())
}

/// The member that is used.
fn used(action: Action<'_>) -> Option<Built>
    ensures { result ≡ used_in (action_of action.entry) }
{
    match action {
        Action::Use(built) => Some(built),
        _ => None,
    }
}

/// For whom the use of a member waits.
fn built_waits(state: &State, linked: &Linked, ports: &Ports, me: u32, built: Built) -> Option<u32>
    ensures { result ≡ waits_in (model.act linked.now ports.now (state_of state.now) me (Use built)) }
{
    if let Some(_kind) = check_built(linked, state, built) {
        return None;
    }
    match built {
        Built::Look => look_waits(state, ports, me),
        Built::Take => take_waits(state, ports, me),
        Built::TakeInt => take_waits(state, ports, me),
        Built::TakeTruth => take_waits(state, ports, me),
        Built::TakeText => take_waits(state, ports, me),
        _ => None,
    }
}

/// For whose message the next instruction waits.
pub(crate) fn waits(state: &State, linked: &Linked, ports: &Ports, me: u32) -> Option<u32>
    ensures { result ≡ waits_in (model.step linked.now me (state_of state.now) ports.now) }
{
    let instr = next_instr(linked, state)?;
    let action = action_of(instr)?;
    let built = used(action)?;
    built_waits(state, linked, ports, me, built)
}
