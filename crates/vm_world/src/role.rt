//! A role: its machine, or how it ended, and how many of its instructions were counted.
//! A turn of it is one step.

ghost use Rattle.std.specs.Prelude.{false, ◌≡◌, ◌+◌, ◌<◌, ◌≤◌, ◌^◌, IfOk, IfSome, OnErr};
ghost use Rattle.vm_world.specs.Alone.{RoleAlone};
ghost use Rattle.vm_events.specs.Seen.{Grows};
ghost use Rattle.vm_world_law.specs.Turns.{is_over};
ghost use Rattle.vm_world.specs.Outcome.{outcome, IsCounted};
ghost use Rattle.vm_world.specs.View.{role_of, state_of};
ghost use Rattle.vm_world.specs.Typed.{IsTyped, RoleSuits};
ghost use Rattle.vm_model.specs.Step as model;
ghost use Rattle.vm_session.specs.Doing.{Does};
ghost use Rattle.vm_step.specs.Alone.{AllAlone};
ghost use Rattle.cls_verify.specs.Sound.{Sound};
ghost use Rattle.vm_world.specs.Told.{RoleTells};

use mg_text::{Ending, Event, Memory, Text};
use std::alloc::Global;
use vm_events::Events;
use vm_flat::FlatProgram;
use vm_model::{Linked, Ports};
use vm_step::{Machine, Stepped, Telling};
use vm_world_law::Turned;

/// A role runs, or has ended.
#[derive(Drop)]
pub(crate) enum State {
    Runs(Machine),
    Over(Ending),
}

/// Where a role stands, and how many of its instructions were counted.
#[derive(Drop)]
pub(crate) struct Role {
    pub state: State,
    pub count: u64,
}

/// What a turn did, and what was seen of it.
#[derive(Drop)]
pub(crate) struct Taken {
    pub turned: Turned,
    pub event: Option<Event>,
}

/// The same ending once more.
pub(crate) fn copy_of(ending: &Ending) -> Result<Ending, Memory>
    ensures { IfOk result (λ e. e ≡ ending.now) }
{
    let copy = match ending {
        Ending::Done => Ending::Done,
        Ending::Zero => Ending::Zero,
        Ending::Null => Ending::Null,
        Ending::Mismatch(peer, found) => {
            let peer = peer.copy()?;
            let found = found.copy()?;
            Ending::Mismatch(peer, found)
        }
        Ending::NoPeer(peer) => Ending::NoPeer(peer.copy()?),
        Ending::Bad(kind) => Ending::Bad(*kind),
    };
    Ok(copy)
}

/// A step of a machine: without the tests that typings have made, where the program has a flat form.
fn step(
    machine: &mut Machine,
    alloc: Global,
    linked: &Linked,
    flat: &Option<FlatProgram>,
    ports: &mut Ports,
    me: u32,
) -> Result<Stepped, Memory>
    requires { IfSome flat.now (λ f. IsTyped linked.now f × Sound linked.now machine.old.machine) }
    ensures ok { IfOk result (λ s. Does (model.step linked.now me machine.old.machine ports.old)
        machine.old.machine ports.old machine.new.machine ports.new s) }
    ensures err { OnErr result (machine.new.machine ≡ machine.old.machine) }
    ensures err_ports { OnErr result (ports.new ≡ ports.old) }
{
    match flat {
        Some(_flat) => machine.step_typed(alloc, linked, ports, me),
        None => machine.step(alloc, linked, ports, me),
    }
}

/// A turn of a role. After an error nothing has changed.
pub(crate) fn take_turn(
    role: &mut Role,
    alloc: Global,
    linked: &Linked,
    flat: &Option<FlatProgram>,
    ports: &mut Ports,
    me: u32,
) -> Result<Taken, Memory>
    requires count { role.old.count < 2 ^ 32 }
    requires typed { IfSome flat.now (λ f. IsTyped linked.now f × RoleSuits linked.now (role_of role.old)) }
    ensures ok { IfOk result (λ t. record { role = role_of role.new; messages = ports.new; event = t.event; turned = t.turned }
        ≡ outcome linked.now me (role_of role.old) ports.old) }
    ensures err { OnErr result (role_of role.new ≡ role_of role.old) }
    ensures err_ports { OnErr result (ports.new ≡ ports.old) }
{
    match &mut role.state {
        State::Over(ending) => {
            let ending = copy_of(ending)?;
            Ok(Taken {
                turned: Turned::Ended(ending),
                event: None,
            })
        }
        State::Runs(machine) => match step(machine, alloc, linked, flat, ports, me)? {
            Stepped::Went(event) => {
                role.count += 1;
                Ok(Taken {
                    turned: Turned::Went,
                    event,
                })
            }
            Stepped::Waits(peer) => Ok(Taken {
                turned: Turned::Waits(peer),
                event: None,
            }),
            Stepped::Ended(ending) => {
                let copy = copy_of(&ending)?;
                role.state = State::Over(ending);
                role.count += 1;
                Ok(Taken {
                    turned: Turned::Ended(copy),
                    event: None,
                })
            }
        },
    }
}

/// A turn of a role that hasn't ended, whose event, if it tells one, is put behind the others. The answer is whether an instruction was counted. After an
/// error nothing has changed.
pub(crate) fn count_turn(
    role: &mut Role,
    alloc: Global,
    linked: &Linked,
    flat: &Option<FlatProgram>,
    ports: &mut Ports,
    events: &mut Events,
    me: u32,
) -> Result<bool, Memory>
    requires count { role.old.count < 2 ^ 32 }
    requires typed { IfSome flat.now (λ f. IsTyped linked.now f × RoleSuits linked.now (role_of role.old)) }
    requires room { 0 < events.old.spare }
    requires runs { is_over (role_of role.old).state ≡ false }
    ensures ok { IfOk result (λ counted. IsCounted linked.now me (role_of role.old) (role_of role.new) ports.old ports.new
        events.old.items events.new.items counted) }
    ensures texts { Grows events.old.texts events.new.texts }
    ensures err { OnErr result (role_of role.new ≡ role_of role.old) }
{
    match &mut role.state {
        State::Over(_ending) => unreachable!(),
        State::Runs(machine) => match step(machine, alloc, linked, flat, ports, me)? {
            Stepped::Went(None) => {
                role.count += 1;
                Ok(true)
            }
            Stepped::Went(Some(event)) => {
                events.add(alloc, me, event);
                role.count += 1;
                Ok(true)
            }
            Stepped::Waits(_peer) => Ok(false),
            Stepped::Ended(ending) => {
                role.state = State::Over(ending);
                role.count += 1;
                Ok(true)
            }
        },
    }
}

/// The step of a role that begins a protocol method of an object or leaves one, and what it tells; or nothing changes.
pub(crate) fn tell(role: &mut Role, linked: &Linked, flat: &FlatProgram) -> Option<Telling>
    requires count { role.old.count < 2 ^ 32 }
    requires typed { IsTyped linked.now flat.now }
    requires suits { RoleSuits linked.now (role_of role.old) }
    ensures { RoleTells linked.now (role_of role.old) (role_of role.new) result }
{
    let State::Runs(machine) = &mut role.state else {
        return None;
    };
    let Some(telling) = machine.tell(linked, flat) else {
        return None;
    };
    role.count += 1;
    Some(telling)
}

/// Frequent steps of a machine that tell nothing, at most so many: without the tests that typings have made, where the program has a
/// flat form. The answer is how many they were.
#[inline(always)]
fn steps_alone(machine: &mut Machine, linked: &Linked, flat: &Option<FlatProgram>, most: u32) -> u32
    requires { IfSome flat.now (λ f. IsTyped linked.now f × Sound linked.now machine.old.machine) }
    ensures most { result ≤ most }
    ensures steps { AllAlone linked.now machine.old.machine result machine.new.machine }
{
    match flat {
        Some(flat) => machine.steps_typed(linked, flat, most),
        None => machine.steps_alone(linked, most),
    }
}

/// Turns of a role whose steps are frequent ones that tell nothing, at most so many. The answer is
/// how many they were.
#[inline(always)]
pub(crate) fn turns_alone(
    role: &mut Role,
    linked: &Linked,
    flat: &Option<FlatProgram>,
    most: u32,
) -> u32
    requires count { role.old.count + most < 2 ^ 32 }
    requires typed { IfSome flat.now (λ f. IsTyped linked.now f × RoleSuits linked.now (role_of role.old)) }
    ensures most { result ≤ most }
    ensures turns { RoleAlone linked.now (role_of role.old) result (role_of role.new) }
{
    let State::Runs(machine) = &mut role.state else {
        return 0;
    };
    let taken = steps_alone(machine, linked, flat, most);
    role.count += u64::from(taken);
    taken
}
