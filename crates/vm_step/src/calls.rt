//! Calls of methods and returns from them.
//! A call costs what the called method has of locals.

ghost use Rattle.std.specs.Prelude.{◌≡◌, ℕ, ◌<◌, ◌≤◌, ◌-◌, ◌^◌, ◌++◌, length, map, option_map, IfOk, OnErr, None};
ghost use Rattle.vm_model.specs.Program.{method_at};
ghost use Rattle.vm_model.specs.View.{method_of};
ghost use Rattle.vm_model.specs.Types.{signature_of};
ghost use Rattle.vm_model.specs.Kept.{type_kept};
ghost use Rattle.vm_model.specs.Actions.{Call};
ghost use Rattle.vm_model.specs.Tests.{below, on_top, max_locals_in, Typed, params_in, descriptor_in, name_of_method, receiver, call_takes};
ghost use Rattle.vm_model.specs.Tests.{call_needs, needs, wrong};
ghost use Rattle.vm_model.specs.Step as model;
ghost use Rattle.vm_session.specs.State.{state_of, operands_of};
ghost use Rattle.vm_actions.specs.Table.{calling_of};
ghost use Rattle.vm_step.specs.Doing.{Plays};
ghost use Rattle.vm_step.specs.Needing.{wants_of, needs_of};
ghost use Rattle.vm_session.specs.inner.Tops.{at_top};
ghost use Rattle.vm_step.specs.inner.Calls.{calls_by, IsReceived};

use crate::needs::{Needs, Want, taking, wrong};
use crate::program::{class_name, max_locals, method_at, method_name};
use mg_text::{BadKind, Ending, Event, Memory, Text};
use std::alloc::Global;
use vm_actions::Calling;
use vm_frames::{Callee, Cell, State};
use vm_model::{FieldType, Linked, LinkedMethod, LinkedType};
use vm_session::Stepped;

/// A method that is called, how many operands it takes, and the object that tells of it.
#[derive(Clone, Copy)]
struct Called {
    class: u32,
    method: u32,
    taken: usize,
    told: Option<u32>,
}

/// Runs a method over the running frame, which goes on behind the call.
fn enter(
    state: &mut State,
    linked: &Linked,
    callee: Called,
    event: Option<Event>,
) -> Result<Stepped, Memory>
    requires place { state.old.machine.frame.place < 2 ^ 32 - 1 }
    requires within { callee.taken ≤ length (operands_of state.old) }
    requires locals { callee.taken ≤ max_locals_in (method_at linked.now callee.class callee.method) }
    ensures ok { IfOk result (λ s. Plays (λ q. model.calls_in linked.now q (state_of state.old)
        callee.class callee.method (below callee.taken (operands_of state.old)) (on_top callee.taken (operands_of state.old))
        callee.told event) (state_of state.old) (state_of state.new) s) }
    ensures err { OnErr result (state_of state.new ≡ state_of state.old) }
{
    let locals = max_locals(method_at(linked, callee.class, callee.method)) as u16;
    state.enter(Callee {
        class: callee.class,
        method: callee.method,
        args: callee.taken,
        locals,
        told: callee.told,
    })?;
    Ok(Stepped::Went(event))
}

/// The event of a protocol method that begins.
fn entered(
    alloc: Global,
    linked: &Linked,
    class: u32,
    method: u32,
    object: u32,
) -> Result<Event, Memory>
    ensures { IfOk result (λ e. e ≡ Event.Enter object (name_of_method (method_at linked.now class method))) }
{
    let name = method_name(method_at(linked, class, method));
    let method = Text::of(alloc, name)?;
    Ok(Event::Enter { object, method })
}

/// Calls a method with so many operands, an object under its arguments.
fn call_on_object(
    state: &mut State,
    alloc: Global,
    linked: &Linked,
    tells: bool,
    callee: Called,
) -> Result<Stepped, Memory>
    requires place { state.old.machine.frame.place < 2 ^ 32 - 1 }
    requires within { callee.taken ≤ length (operands_of state.old) }
    requires locals { callee.taken ≤ max_locals_in (method_at linked.now callee.class callee.method) }
    requires receiver { 1 ≤ callee.taken }
    requires silent { callee.told ≡ None }
    ensures ok { IfOk result (λ s. Plays (λ q. calls_by linked.now q (state_of state.old) tells
        callee.class callee.method (below callee.taken (operands_of state.old)) (on_top callee.taken (operands_of state.old))
        (at_top (operands_of state.old) (callee.taken - 1))) (state_of state.old) (state_of state.new) s) }
    ensures err { OnErr result (state_of state.new ≡ state_of state.old) }
{
    let object = match state.operand(callee.taken - 1) {
        Cell::Object(number) => number,
        Cell::Null | Cell::Unset => return Ok(Stepped::Ended(Ending::Null)),
        _ => return Ok(Stepped::Ended(Ending::Bad(BadKind::Member))),
    };
    if !tells {
        return enter(state, linked, callee, None);
    }
    let event = entered(alloc, linked, callee.class, callee.method, object)?;
    let callee = Called {
        class: callee.class,
        method: callee.method,
        taken: callee.taken,
        told: Some(object),
    };
    enter(state, linked, callee, Some(event))
}

/// Calls a method with so many operands, behind its tests.
fn call_tested(
    state: &mut State,
    alloc: Global,
    linked: &Linked,
    calling: Calling,
    callee: Called,
) -> Result<Stepped, Memory>
    requires place { state.old.machine.frame.place < 2 ^ 32 - 1 }
    requires within { callee.taken ≤ length (operands_of state.old) }
    requires locals { callee.taken ≤ max_locals_in (method_at linked.now callee.class callee.method) }
    requires receiver { IsReceived (calling_of calling) callee.taken }
    requires silent { callee.told ≡ None }
    ensures ok { IfOk result (λ s. Plays (λ q. model.calls linked.now q (state_of state.old)
        (calling_of calling) callee.class callee.method (below callee.taken (operands_of state.old))
        (on_top callee.taken (operands_of state.old))) (state_of state.old) (state_of state.new) s) }
    ensures err { OnErr result (state_of state.new ≡ state_of state.old) }
{
    match calling {
        Calling::Telling => call_on_object(state, alloc, linked, true, callee),
        Calling::Silent => call_on_object(state, alloc, linked, false, callee),
        Calling::Static => enter(state, linked, callee, None),
    }
}

/// What stands under the arguments.
fn receiver<'a>(alloc: Global, calling: Calling, class: &'a str) -> Result<Vec<Want<'a>>, Memory>
    ensures { IfOk result (λ v. wants_of v.items ≡ receiver (calling_of calling) class.now) }
{
    let mut takes = Vec::new(alloc);
    match calling {
        Calling::Telling | Calling::Silent => {
            takes.push(Want::Typed(FieldType::Named(class)))?;
            Ok(takes)
        }
        Calling::Static => Ok(takes),
    }
}

/// Appends what arguments of these types must be.
fn add_params<'a>(takes: &mut Vec<Want<'a>>, params: &'a [LinkedType]) -> Result<(), Memory>
    ensures { IfOk result (λ _. wants_of takes.new.items ≡ wants_of takes.old.items ++ map Typed (map type_kept params.now)) }
{
    for param in params {
        takes.push(Want::Typed(param.field_type()))?;
    }
    Ok(())
}

/// Appends what the arguments of a method must be.
fn add_args<'a>(takes: &mut Vec<Want<'a>>, method: Option<&'a LinkedMethod>) -> Result<(), Memory>
    ensures { IfOk result (λ _. wants_of takes.new.items ≡ wants_of takes.old.items
        ++ map Typed (params_in (signature_of (descriptor_in (option_map (λ m. method_of m.now) method.entry))))) }
{
    match method {
        Some(method) => add_params(takes, method.params.as_slice()),
        None => Ok(()),
    }
}

/// What a call takes.
fn call_takes<'a>(
    alloc: Global,
    linked: &'a Linked,
    calling: Calling,
    class: u32,
    method: u32,
) -> Result<Vec<Want<'a>>, Memory>
    ensures { IfOk result (λ v. wants_of v.items ≡ call_takes linked.now (calling_of calling) class
        (method_at linked.now class method)) }
{
    let mut takes = receiver(alloc, calling, class_name(linked, class))?;
    add_args(&mut takes, method_at(linked, class, method))?;
    Ok(takes)
}

/// What a call of a method that takes these needs.
fn call_needs<'a>(
    linked: &Linked,
    state: &State,
    takes: &'a [Want<'a>],
    method: Option<&LinkedMethod>,
) -> Needs<'a>
    ensures { needs_of result ≡ call_needs linked.now (state_of state.now) (wants_of takes.now)
        (option_map (λ m. method_of m.now) method.entry) }
{
    let mut needs = taking(linked, state, takes, 0);
    needs.locals = takes.len();
    needs.of_locals = max_locals(method);
    needs.operands = 0;
    needs.max_stack = 0;
    needs
}

/// Calls a method.
pub(crate) fn call(
    state: &mut State,
    alloc: Global,
    linked: &Linked,
    calling: Calling,
    class: u32,
    method: u32,
) -> Result<Stepped, Memory>
    requires { state.old.machine.frame.place < 2 ^ 32 - 1 }
    ensures ok { IfOk result (λ s. (me : ℕ) → Plays (λ q. model.act linked.now q (state_of state.old) me
        (Call (calling_of calling) class method)) (state_of state.old) (state_of state.new) s) }
    ensures err { OnErr result (state_of state.new ≡ state_of state.old) }
{
    let takes = call_takes(alloc, linked, calling, class, method)?;
    let needs = call_needs(
        linked,
        state,
        takes.as_slice(),
        method_at(linked, class, method),
    );
    if let Some(kind) = wrong(linked, state, &needs) {
        return Ok(Stepped::Ended(Ending::Bad(kind)));
    }
    let callee = Called {
        class,
        method,
        taken: takes.len(),
        told: None,
    };
    call_tested(state, alloc, linked, calling, callee)
}

/// How many parameters a method has.
fn params(method: Option<&LinkedMethod>) -> usize
    ensures value { result ≡ length (params_in (signature_of (descriptor_in (option_map (λ m. method_of m.now) method.entry)))) }
    ensures bound { result < 2 ^ 32 }
{
    match method {
        Some(method) => method.params.len(),
        None => 0,
    }
}

/// How many operands a call takes: its arguments, and the object under them where it has one.
fn taken(linked: &Linked, calling: Calling, class: u32, method: u32) -> usize
    ensures count { result ≡ length (call_takes linked.now (calling_of calling) class (method_at linked.now class method)) }
    ensures receiver { IsReceived (calling_of calling) result }
{
    let params = params(method_at(linked, class, method));
    match calling {
        Calling::Telling | Calling::Silent => params + 1,
        Calling::Static => params,
    }
}

/// Calls a method where nothing is wrong with that.
pub(crate) fn call_right(
    state: &mut State,
    alloc: Global,
    linked: &Linked,
    calling: Calling,
    class: u32,
    method: u32,
) -> Result<Stepped, Memory>
    requires place { state.old.machine.frame.place < 2 ^ 32 - 1 }
    requires right { wrong linked.now (needs linked.now (state_of state.old)
        (Call (calling_of calling) class method)) (state_of state.old) ≡ None }
    ensures ok { IfOk result (λ s. (me : ℕ) → Plays (λ q. model.act linked.now q (state_of state.old) me
        (Call (calling_of calling) class method)) (state_of state.old) (state_of state.new) s) }
    ensures err { OnErr result (state_of state.new ≡ state_of state.old) }
{
    let taken = taken(linked, calling, class, method);
    let callee = Called {
        class,
        method,
        taken,
        told: None,
    };
    call_tested(state, alloc, linked, calling, callee)
}
