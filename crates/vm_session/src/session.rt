//! The members of `Session`: messages that are sent, looked at, taken and refused.
//! Everything that needs memory is made before anything changes.

ghost use Rattle.std.specs.Prelude.{◌≡◌, ℕ, List, ◌<◌, ◌≤◌, ◌-◌, ◌^◌, ◌++◌, Some, length, option_map, IfOk, OnOk, OnErr};
ghost use Rattle.vm_model.specs.Messages.{role_named};
ghost use Rattle.vm_model.specs.Tests.{below};
ghost use Rattle.vm_model.specs.Step as model;
ghost use Rattle.mg_text.specs.Call.{Name};
ghost use Rattle.vm_frames.specs.Seen.{value_in, IsSet};
ghost use Rattle.vm_session.specs.State.{state_of, operands_of};
ghost use Rattle.vm_session.specs.Doing.{Does};
ghost use Rattle.vm_session.specs.inner.Tops.{at_top, text_in};
ghost use Rattle.vm_session.specs.inner.Sessions.{payload_of, payload_in, sent_count, pushed_of, taken_where, sends_by, looks_by, takes_by};
ghost use Rattle.vm_session.specs.inner.Sessions.{refuses_by};

use crate::operands::{int_at, put_text, text_at};
use crate::stepped::Stepped;
use mg_text::{Carried, Ending, Event, Memory, Sent, Text};
use vm_frames::{Cell, State};
use vm_model::Ports;

/// What a message carries, by the method that sends or takes it.
#[derive(Clone, Copy)]
pub enum Payload {
    Nothing,
    Int,
    Truth,
    Text,
}

/// The number of the role of this name, where the run has it and it is another than `me`.
pub fn other_role(ports: &Ports, me: u32, name: &str) -> Option<u32>
    ensures { result ≡ model.other_role me (role_named ports.now name.now) }
{
    match ports.role(name) {
        Some(peer) if peer != me => Some(peer),
        _ => None,
    }
}

/// The run has no such other role.
fn no_peer(peer: &Text) -> Result<Stepped, Memory>
    ensures { IfOk result (λ s. s ≡ Stepped.Ended (Ending.NoPeer peer.now)) }
{
    let peer = peer.copy()?;
    Ok(Stepped::Ended(Ending::NoPeer(peer)))
}

/// An equal payload.
fn copied(carried: &Carried) -> Result<Carried, Memory>
    ensures { IfOk result (λ c. c ≡ carried.now) }
{
    match carried {
        Carried::Nothing => Ok(Carried::Nothing),
        Carried::Int(x) => Ok(Carried::Int(*x)),
        Carried::Truth(b) => Ok(Carried::Truth(*b)),
        Carried::Text(text) => {
            let text = text.copy()?;
            Ok(Carried::Text(text))
        }
    }
}

/// Whether an int is a truth value that holds.
pub fn is_true(x: i32) -> bool
    ensures { result ≡ model.is_true x }
{
    x != 0
}

/// A truth value as an int.
pub fn truth(b: bool) -> Cell
    ensures value { (texts : List Name) → value_in texts result ≡ model.truth b }
    ensures set { (count : ℕ) → IsSet count result }
{
    if b { Cell::Int(1) } else { Cell::Int(0) }
}

/// What is sent, from the operand on top.
fn payload_at(state: &State, carries: Payload) -> Result<Option<Carried>, Memory>
    requires { 1 ≤ length (operands_of state.now) }
    ensures { IfOk result (λ o. o ≡ payload_in (payload_of carries) (at_top (operands_of state.now) 0)) }
{
    match carries {
        Payload::Nothing => Ok(Some(Carried::Nothing)),
        Payload::Int => match int_at(state, 0) {
            Some(x) => Ok(Some(Carried::Int(x))),
            None => Ok(None),
        },
        Payload::Truth => match int_at(state, 0) {
            Some(x) => Ok(Some(Carried::Truth(is_true(x)))),
            None => Ok(None),
        },
        Payload::Text => match text_at(state, 0) {
            Some(text) => {
                let text = text.copy()?;
                Ok(Some(Carried::Text(text)))
            }
            None => Ok(None),
        },
    }
}

/// How many operands a send takes.
fn sent_count(carries: Payload) -> usize
    ensures value { result ≡ sent_count (payload_of carries) }
    ensures some { 2 ≤ result }
{
    match carries {
        Payload::Nothing => 2,
        _ => 3,
    }
}

/// The message of a label with an equal payload.
fn sent(label: &Text, payload: &Carried) -> Result<Sent, Memory>
    ensures { IfOk result (λ m. m ≡ record { label = label.now; payload = payload.now }) }
{
    let payload = copied(payload)?;
    let label = label.copy()?;
    Ok(Sent { label, payload })
}

/// The event of a message that is sent.
fn sent_event(peer: &Text, label: &Text, payload: Carried) -> Result<Event, Memory>
    ensures { IfOk result (λ e. e ≡ Event.Send peer.now label.now payload) }
{
    Ok(Event::Send {
        peer: peer.copy()?,
        label: label.copy()?,
        payload,
    })
}

/// Sends this payload to the role that the lowest of so many operands names, with the label above it.
fn send_payload(
    state: &mut State,
    ports: &mut Ports,
    me: u32,
    taken: usize,
    payload: Carried,
) -> Result<Stepped, Memory>
    requires place { state.old.machine.frame.place < 2 ^ 32 - 1 }
    requires some { 2 ≤ taken }
    requires within { taken ≤ length (operands_of state.old) }
    ensures ok { IfOk result (λ s. Does (sends_by ports.old (state_of state.old) me (below taken (operands_of state.old))
        (text_in (at_top (operands_of state.old) (taken - 1))) (text_in (at_top (operands_of state.old) (taken - 2)))
        (Some payload)) (state_of state.old) ports.old (state_of state.new) ports.new s) }
    ensures err { OnErr result (state_of state.new ≡ state_of state.old) }
    ensures err_ports { OnErr result (ports.new ≡ ports.old) }
{
    let Some(peer) = text_at(state, taken - 1) else {
        return Ok(Stepped::Ended(Ending::Null));
    };
    let Some(label) = text_at(state, taken - 2) else {
        return Ok(Stepped::Ended(Ending::Null));
    };
    let Some(to) = other_role(ports, me, peer.as_str()) else {
        return no_peer(peer);
    };
    let message = sent(label, &payload)?;
    let event = sent_event(peer, label, payload)?;
    ports.send(me, to, message)?;
    let place = state.place() + 1;
    state.drop(taken, place);
    Ok(Stepped::Went(Some(event)))
}

/// Sends a message. After an error, which is want of memory, nothing has changed.
pub fn send(
    state: &mut State,
    ports: &mut Ports,
    me: u32,
    carries: Payload,
) -> Result<Stepped, Memory>
    requires place { state.old.machine.frame.place < 2 ^ 32 - 1 }
    requires within { sent_count (payload_of carries) ≤ length (operands_of state.old) }
    ensures ok { let n = sent_count (payload_of carries) in IfOk result
        (λ s. Does (sends_by ports.old (state_of state.old) me (below n (operands_of state.old))
        (text_in (at_top (operands_of state.old) (n - 1))) (text_in (at_top (operands_of state.old) (n - 2)))
        (payload_in (payload_of carries) (at_top (operands_of state.old) 0))) (state_of state.old) ports.old (state_of state.new)
        ports.new s) }
    ensures err { OnErr result (state_of state.new ≡ state_of state.old) }
    ensures err_ports { OnErr result (ports.new ≡ ports.old) }
{
    let taken = sent_count(carries);
    let Some(payload) = payload_at(state, carries)? else {
        return Ok(Stepped::Ended(Ending::Null));
    };
    send_payload(state, ports, me, taken, payload)
}

/// Looks at the label of the next message from a role. After an error, which is want of memory,
/// nothing has changed.
pub fn look(state: &mut State, ports: &Ports, me: u32) -> Result<Stepped, Memory>
    requires place { state.old.machine.frame.place < 2 ^ 32 - 1 }
    requires within { 1 ≤ length (operands_of state.old) }
    ensures ok { IfOk result (λ s. Does (looks_by ports.now (state_of state.old) me (below 1 (operands_of state.old))
        (text_in (at_top (operands_of state.old) 0))) (state_of state.old) ports.now (state_of state.new) ports.now s) }
    ensures err { OnErr result (state_of state.new ≡ state_of state.old) }
{
    let Some(peer) = text_at(state, 0) else {
        return Ok(Stepped::Ended(Ending::Null));
    };
    let Some(from) = other_role(ports, me, peer.as_str()) else {
        return no_peer(peer);
    };
    let Some(message) = ports.first(from, me) else {
        return Ok(Stepped::Waits(from));
    };
    let event = Event::Look {
        peer: peer.copy()?,
        label: message.label.copy()?,
    };
    let label = message.label.copy()?;
    put_text(state, 1, label)?;
    Ok(Stepped::Went(Some(event)))
}

/// What a taken payload pushes, where it is of the kind that is wanted.
fn given(carries: Payload, payload: &Carried) -> Result<Option<Carried>, Memory>
    ensures { IfOk result (λ o. option_map pushed_of o ≡ model.taken_as (payload_of carries) payload.now) }
{
    match (carries, payload) {
        (Payload::Nothing, Carried::Nothing)
        | (Payload::Int, Carried::Int(_))
        | (Payload::Truth, Carried::Truth(_))
        | (Payload::Text, Carried::Text(_)) => Ok(Some(copied(payload)?)),
        _ => Ok(None),
    }
}

/// The same where the message has the label that is wanted too.
fn given_where(carries: Payload, label: &Text, message: &Sent) -> Result<Option<Carried>, Memory>
    ensures { IfOk result (λ o. option_map pushed_of o ≡ taken_where (payload_of carries) label.now message.now) }
{
    if message.label.as_str() == label.as_str() {
        given(carries, &message.payload)
    } else {
        Ok(None)
    }
}

/// Puts what is given, if anything is, in the place of the two operands on top. After an error
/// nothing has changed.
fn settle_with(state: &mut State, given: Carried) -> Result<(), Memory>
    requires place { state.old.machine.frame.place < 2 ^ 32 - 1 }
    requires within { 2 ≤ length (operands_of state.old) }
    ensures ok { OnOk result (state_of state.new ≡ model.next (state_of state.old) (below 2 (operands_of state.old) ++ pushed_of given)) }
    ensures err { OnErr result (state_of state.new ≡ state_of state.old) }
{
    let place = state.place() + 1;
    match given {
        Carried::Nothing => {
            state.drop(2, place);
            Ok(())
        }
        Carried::Int(x) => {
            state.put(2, Cell::Int(x), place);
            Ok(())
        }
        Carried::Truth(b) => {
            state.put(2, truth(b), place);
            Ok(())
        }
        Carried::Text(text) => put_text(state, 2, text),
    }
}

/// The event of a message that is taken.
fn taken_event(peer: &Text, message: &Sent) -> Result<Event, Memory>
    ensures { IfOk result (λ e. e ≡ Event.Take peer.now message.now.label message.now.payload) }
{
    Ok(Event::Take {
        peer: peer.copy()?,
        label: message.label.copy()?,
        payload: copied(&message.payload)?,
    })
}

/// Another message stands first than that which is wanted.
fn mismatch(peer: &Text, label: &Text) -> Result<Stepped, Memory>
    ensures { IfOk result (λ s. s ≡ Stepped.Ended (Ending.Mismatch peer.now label.now)) }
{
    let peer = peer.copy()?;
    let label = label.copy()?;
    Ok(Stepped::Ended(Ending::Mismatch(peer, label)))
}

/// Takes the next message from a role, where its label and what it carries are those that are wanted.
/// After an error, which is want of memory, nothing has changed.
pub fn take(
    state: &mut State,
    ports: &mut Ports,
    me: u32,
    carries: Payload,
) -> Result<Stepped, Memory>
    requires place { state.old.machine.frame.place < 2 ^ 32 - 1 }
    requires within { 2 ≤ length (operands_of state.old) }
    ensures ok { IfOk result (λ s. Does (takes_by ports.old (state_of state.old) me (payload_of carries)
        (below 2 (operands_of state.old)) (text_in (at_top (operands_of state.old) 1)) (text_in (at_top (operands_of state.old) 0)))
        (state_of state.old) ports.old (state_of state.new) ports.new s) }
    ensures err { OnErr result (state_of state.new ≡ state_of state.old) }
    ensures err_ports { OnErr result (ports.new ≡ ports.old) }
{
    let Some(peer) = text_at(state, 1) else {
        return Ok(Stepped::Ended(Ending::Null));
    };
    let Some(label) = text_at(state, 0) else {
        return Ok(Stepped::Ended(Ending::Null));
    };
    let Some(from) = other_role(ports, me, peer.as_str()) else {
        return no_peer(peer);
    };
    let Some(message) = ports.first(from, me) else {
        return Ok(Stepped::Waits(from));
    };
    let Some(given) = given_where(carries, label, message)? else {
        return mismatch(peer, &message.label);
    };
    let event = taken_event(peer, message)?;
    settle_with(state, given)?;
    let _taken = ports.take(from, me);
    Ok(Stepped::Went(Some(event)))
}

/// Refuses the label that was found. The one error is want of memory.
pub fn refuse(state: &State, ports: &Ports, me: u32) -> Result<Stepped, Memory>
    requires { 2 ≤ length (operands_of state.now) }
    ensures { IfOk result (λ s. Does (refuses_by ports.now me (text_in (at_top (operands_of state.now) 1))
        (text_in (at_top (operands_of state.now) 0))) (state_of state.now) ports.now (state_of state.now) ports.now s) }
{
    let Some(peer) = text_at(state, 1) else {
        return Ok(Stepped::Ended(Ending::Null));
    };
    let Some(found) = text_at(state, 0) else {
        return Ok(Stepped::Ended(Ending::Null));
    };
    match other_role(ports, me, peer.as_str()) {
        Some(_from) => mismatch(peer, found),
        None => no_peer(peer),
    }
}
