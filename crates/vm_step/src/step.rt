//! A step: the next instruction's tests, and then what it does.
//! Nothing changes where memory is wanting or a message is.

ghost use Rattle.std.specs.Prelude.{◌≡◌, true, false, ℕ, ◌+◌, ◌<◌, ◌≤◌, ◌-◌, ◌^◌, option_map, slice_get, Some, IfOk, OnErr, OnSome};
ghost use Rattle.std.specs.Prelude.{[], None};
ghost use Rattle.vm_model.specs.Program as program;
ghost use Rattle.vm_model.specs.View.{field_of, instr_of};
ghost use Rattle.vm_model.specs.Actions as actions;
ghost use Rattle.vm_model.specs.Types as types;
ghost use Rattle.vm_model.specs.Tests as tests;
ghost use Rattle.vm_model.specs.Step as model;
ghost use Rattle.vm_frames.specs.Kept.{most};
ghost use Rattle.vm_session.specs.State.{state_of};
ghost use Rattle.vm_actions.specs.Table.{sort_of, plain_of, action_of};
ghost use Rattle.vm_step.specs.Needing.{want_of, wants_of};
ghost use Rattle.vm_step.specs.Steady.{is_steady, is_steady_action, next_action};
ghost use Rattle.vm_session.specs.Doing.{Does};
ghost use Rattle.vm_step.specs.Doing.{Plays};

use crate::built::{concat, equals, init, print, push_out, show_int, show_truth};
use crate::calls::call;
use crate::needs::{NUMBER, TEXT, Want, bound_room, taking, wrong};
use crate::objects::{make, read, write};
use crate::plain::{
    compute, double, increase, jump, jump_on_both, jump_on_null, jump_on_zero, load, negate, pop,
    push_constant, store, swap, switch,
};
use crate::program::{class_name, field_at, lent, method_at};
use crate::returns::return_from;
use mg_text::{BadKind, Ending, Memory};
use std::alloc::Global;
use vm_actions::{Action, Plain, Sort, action_of};
use vm_frames::State;
use vm_model::{Built, FieldType, Linked, LinkedField, LinkedInstr, Ports};
use vm_session::{Payload, Stepped, look, refuse, send, take};

/// What is wrong with an instruction that takes these operands and gives so many.
fn check(linked: &Linked, state: &State, takes: &[Want<'_>], gives: usize) -> Option<BadKind>
    requires { gives ≤ 2 }
    ensures wrong { result ≡ tests.wrong linked.now
        (tests.taking linked.now (state_of state.now) (wants_of takes.now) gives) (state_of state.now) }
    ensures small { tests.max_stack_in (tests.method_of_frame linked.now (state_of state.now).frame) ≤ most }
{
    wrong(linked, state, &taking(linked, state, takes, gives))
}

/// What is wrong with an instruction that reads a local.
fn check_reading(
    linked: &Linked,
    state: &State,
    sort: Sort,
    local: u8,
    gives: usize,
) -> Option<BadKind>
    requires { gives ≤ 2 }
    ensures wrong { result ≡ tests.wrong linked.now
        (record (tests.taking linked.now (state_of state.now) [] gives)
        { reads = Some (local, sort_of sort); locals = local + 1 }) (state_of state.now) }
    ensures small { tests.max_stack_in (tests.method_of_frame linked.now (state_of state.now).frame) ≤ most }
{
    let mut needs = taking(linked, state, &[], gives);
    needs.reads = Some((local, sort));
    needs.locals = usize::from(local) + 1;
    wrong(linked, state, &needs)
}

/// What is wrong with an instruction that takes a value of this sort into a local.
fn check_storing(linked: &Linked, state: &State, sort: Sort, local: u8) -> Option<BadKind>
    ensures wrong { result ≡ tests.wrong linked.now
        (tests.needs linked.now (state_of state.now) (actions.Store (sort_of sort) local)) (state_of state.now) }
    ensures small { tests.max_stack_in (tests.method_of_frame linked.now (state_of state.now).frame) ≤ most }
{
    let takes = [Want::Sorted(sort)];
    let mut needs = taking(linked, state, &takes, 0);
    needs.locals = usize::from(local) + 1;
    wrong(linked, state, &needs)
}

/// What is wrong with an instruction that stays in its frame.
fn check_plain(linked: &Linked, state: &State, plain: Plain<'_>) -> Option<BadKind>
    ensures wrong { result ≡ tests.wrong linked.now
        (tests.needs linked.now (state_of state.now) (plain_of plain.entry)) (state_of state.now) }
    ensures small { tests.max_stack_in (tests.method_of_frame linked.now (state_of state.now).frame) ≤ most }
{
    match plain {
        Plain::Push(_) => check(linked, state, &[], 1),
        Plain::Load(sort, local) => check_reading(linked, state, sort, local, 1),
        Plain::Store(sort, local) => check_storing(linked, state, sort, local),
        Plain::Pop => check(linked, state, &[Want::Any], 0),
        Plain::Double => check(linked, state, &[Want::Any], 2),
        Plain::Swap => check(linked, state, &[Want::Any, Want::Any], 2),
        Plain::Compute(_) => check(linked, state, &[NUMBER, NUMBER], 1),
        Plain::Negate => check(linked, state, &[NUMBER], 1),
        Plain::Increase(local, _) => check_reading(linked, state, Sort::Number, local, 0),
        Plain::IfZero(_, _) => check(linked, state, &[NUMBER], 0),
        Plain::IfBoth(_, _) => check(linked, state, &[NUMBER, NUMBER], 0),
        Plain::IfNull(_, _) => check(linked, state, &[Want::Sorted(Sort::Reference)], 0),
        Plain::Go(_) => check(linked, state, &[], 0),
        Plain::Switch { .. } => check(linked, state, &[NUMBER], 0),
    }
}

/// Acts on an instruction that stays in its frame.
pub(crate) fn act_plain(
    state: &mut State,
    linked: &Linked,
    plain: Plain<'_>,
) -> Result<Stepped, Memory>
    requires { state.old.machine.frame.place < 2 ^ 32 - 1 }
    ensures ok { IfOk result (λ s. (me : ℕ) → Plays (λ q. model.act linked.now q (state_of state.old) me
        (plain_of plain.entry)) (state_of state.old) (state_of state.new) s) }
    ensures err { OnErr result (state_of state.new ≡ state_of state.old) }
    ensures steady { OnErr result (is_steady_action (plain_of plain.entry) ≡ false) }
{
    if let Some(kind) = check_plain(linked, state, plain) {
        return Ok(Stepped::Ended(Ending::Bad(kind)));
    }
    match plain {
        Plain::Push(constant) => push_constant(state, constant),
        Plain::Load(_, local) => Ok(load(state, local)),
        Plain::Store(_, local) => Ok(store(state, local)),
        Plain::Pop => Ok(pop(state)),
        Plain::Double => Ok(double(state)),
        Plain::Swap => Ok(swap(state)),
        Plain::Compute(operation) => Ok(compute(state, operation)),
        Plain::Negate => Ok(negate(state)),
        Plain::Increase(local, by) => Ok(increase(state, local, by)),
        Plain::IfZero(comparison, target) => Ok(jump_on_zero(state, comparison, target)),
        Plain::IfBoth(comparison, target) => Ok(jump_on_both(state, comparison, target)),
        Plain::IfNull(wanted, target) => Ok(jump_on_null(state, wanted, target)),
        Plain::Go(target) => Ok(jump(state, target)),
        Plain::Switch {
            default,
            low,
            targets,
        } => Ok(switch(state, default, low, targets)),
    }
}

/// An object of a class, or null.
fn object<'a>(linked: &'a Linked, class: u32) -> Want<'a>
    ensures { want_of result ≡ tests.Typed (types.Named (program.class_name linked.now class)) }
{
    Want::Typed(FieldType::Named(class_name(linked, class)))
}

/// Reads a field.
pub(crate) fn act_read(
    state: &mut State,
    linked: &Linked,
    class: u32,
    field: u32,
) -> Result<Stepped, Memory>
    requires { state.old.machine.frame.place < 2 ^ 32 - 1 }
    ensures ok { IfOk result (λ s. (me : ℕ) → Plays (λ q. model.act linked.now q (state_of state.old) me
        (actions.Read class field)) (state_of state.old) (state_of state.new) s) }
    ensures err { OnErr result (state_of state.new ≡ state_of state.old) }
    ensures steady { OnErr result (true ≡ false) }
{
    let takes = [object(linked, class)];
    if let Some(kind) = check(linked, state, &takes, 1) {
        return Ok(Stepped::Ended(Ending::Bad(kind)));
    }
    Ok(read(state, field))
}

/// What a field takes.
pub(crate) fn field_want<'a>(field: Option<&'a LinkedField>) -> Want<'a>
    ensures { want_of result ≡ tests.type_in (option_map (λ f. field_of f.now) field.entry) }
{
    let Some(field) = field else {
        return Want::Any;
    };
    match lent(&field.field_type) {
        Some(field_type) => Want::Typed(field_type),
        None => Want::Any,
    }
}

/// Writes a field.
pub(crate) fn act_write(
    state: &mut State,
    linked: &Linked,
    class: u32,
    field: u32,
) -> Result<Stepped, Memory>
    requires { state.old.machine.frame.place < 2 ^ 32 - 1 }
    ensures ok { IfOk result (λ s. (me : ℕ) → Plays (λ q. model.act linked.now q (state_of state.old) me
        (actions.Write class field)) (state_of state.old) (state_of state.new) s) }
    ensures err { OnErr result (state_of state.new ≡ state_of state.old) }
    ensures steady { OnErr result (true ≡ false) }
{
    let value = field_want(field_at(linked, class, field));
    let takes = [object(linked, class), value];
    if let Some(kind) = check(linked, state, &takes, 0) {
        return Ok(Stepped::Ended(Ending::Bad(kind)));
    }
    Ok(write(state, field))
}

/// Makes an object.
fn act_make(
    state: &mut State,
    alloc: Global,
    linked: &Linked,
    class: u32,
) -> Result<Stepped, Memory>
    requires { state.old.machine.frame.place < 2 ^ 32 - 1 }
    ensures ok { IfOk result (λ s. (me : ℕ) → Plays (λ q. model.act linked.now q (state_of state.old) me
        (actions.Make class)) (state_of state.old) (state_of state.new) s) }
    ensures err { OnErr result (state_of state.new ≡ state_of state.old) }
{
    if let Some(kind) = check(linked, state, &[], 1) {
        return Ok(Stepped::Ended(Ending::Bad(kind)));
    }
    make(state, alloc, linked, class)
}

/// An object of any class.
const OBJECT: Want<'static> = Want::Typed(FieldType::Named("java/lang/Object"));

/// The print stream.
const STREAM: Want<'static> = Want::Typed(FieldType::Named("java/io/PrintStream"));

/// What is wrong with the use of a member of a built-in class.
pub(crate) fn check_built(linked: &Linked, state: &State, built: Built) -> Option<BadKind>
    ensures wrong { result ≡ tests.wrong linked.now
        (tests.needs linked.now (state_of state.now) (actions.Use built)) (state_of state.now) }
    ensures small { tests.max_stack_in (tests.method_of_frame linked.now (state_of state.now).frame) ≤ most }
{
    match built {
        Built::Init => check(linked, state, &[OBJECT], 0),
        Built::Concat => check(linked, state, &[TEXT, TEXT], 1),
        Built::Equals => check(linked, state, &[TEXT, OBJECT], 1),
        Built::ValueOfInt | Built::ValueOfTruth => check(linked, state, &[NUMBER], 1),
        Built::Out => check(linked, state, &[], 1),
        Built::Println => check(linked, state, &[STREAM, TEXT], 0),
        Built::Send | Built::Take | Built::Refuse => check(linked, state, &[TEXT, TEXT], 0),
        Built::SendInt | Built::SendTruth => { check(linked, state, &[TEXT, TEXT, NUMBER], 0) }
        Built::SendText => check(linked, state, &[TEXT, TEXT, TEXT], 0),
        Built::Look => check(linked, state, &[TEXT], 1),
        Built::TakeInt | Built::TakeTruth | Built::TakeText => {
            check(linked, state, &[TEXT, TEXT], 1)
        }
    }
}

/// Uses a member of a built-in class with which nothing is wrong.
pub(crate) fn use_built(
    state: &mut State,
    alloc: Global,
    linked: &Linked,
    ports: &mut Ports,
    me: u32,
    built: Built,
) -> Result<Stepped, Memory>
    requires place { state.old.machine.frame.place < 2 ^ 32 - 1 }
    requires right { tests.wrong linked.now (tests.needs linked.now (state_of state.old)
        (actions.Use built)) (state_of state.old) ≡ None }
    ensures ok { IfOk result (λ s. Does (model.act linked.now ports.old (state_of state.old) me
        (actions.Use built)) (state_of state.old) ports.old (state_of state.new) ports.new s) }
    ensures err { OnErr result (state_of state.new ≡ state_of state.old) }
    ensures err_ports { OnErr result (ports.new ≡ ports.old) }
{
    match built {
        Built::Init => Ok(init(state)),
        Built::Concat => concat(state, alloc),
        Built::Equals => Ok(equals(state)),
        Built::ValueOfInt => show_int(state, alloc),
        Built::ValueOfTruth => show_truth(state, alloc),
        Built::Out => {
            bound_room(linked, state);
            Ok(push_out(state))
        }
        Built::Println => print(state, alloc),
        Built::Send => send(state, ports, me, Payload::Nothing),
        Built::SendInt => send(state, ports, me, Payload::Int),
        Built::SendTruth => send(state, ports, me, Payload::Truth),
        Built::SendText => send(state, ports, me, Payload::Text),
        Built::Look => look(state, ports, me),
        Built::Take => take(state, ports, me, Payload::Nothing),
        Built::TakeInt => take(state, ports, me, Payload::Int),
        Built::TakeTruth => take(state, ports, me, Payload::Truth),
        Built::TakeText => take(state, ports, me, Payload::Text),
        Built::Refuse => refuse(state, ports, me),
    }
}

/// Uses a member of a built-in class.
fn act_built(
    state: &mut State,
    alloc: Global,
    linked: &Linked,
    ports: &mut Ports,
    me: u32,
    built: Built,
) -> Result<Stepped, Memory>
    requires { state.old.machine.frame.place < 2 ^ 32 - 1 }
    ensures ok { IfOk result (λ s. Does (model.act linked.now ports.old (state_of state.old) me
        (actions.Use built)) (state_of state.old) ports.old (state_of state.new) ports.new s) }
    ensures err { OnErr result (state_of state.new ≡ state_of state.old) }
    ensures err_ports { OnErr result (ports.new ≡ ports.old) }
{
    if let Some(kind) = check_built(linked, state, built) {
        return Ok(Stepped::Ended(Ending::Bad(kind)));
    }
    use_built(state, alloc, linked, ports, me, built)
}

/// Acts on an instruction.
fn act(
    state: &mut State,
    alloc: Global,
    linked: &Linked,
    ports: &mut Ports,
    me: u32,
    action: Action<'_>,
) -> Result<Stepped, Memory>
    requires { state.old.machine.frame.place < 2 ^ 32 - 1 }
    ensures ok { IfOk result (λ s. Does (model.act linked.now ports.old (state_of state.old) me
        (action_of action.entry)) (state_of state.old) ports.old (state_of state.new) ports.new s) }
    ensures err { OnErr result (state_of state.new ≡ state_of state.old) }
    ensures err_ports { OnErr result (ports.new ≡ ports.old) }
    ensures steady { OnErr result (is_steady_action (action_of action.entry) ≡ false) }
{
    match action {
        Action::Plain(plain) => act_plain(state, linked, plain),
        Action::Return(sort) => Ok(return_from(state, linked, sort)),
        Action::Read { class, field } => act_read(state, linked, class, field),
        Action::Write { class, field } => act_write(state, linked, class, field),
        Action::Make(class) => act_make(state, alloc, linked, class),
        Action::Call {
            calling,
            class,
            method,
        } => call(state, alloc, linked, calling, class, method),
        Action::Use(built) => act_built(state, alloc, linked, ports, me, built),
    }
}

/// The next instruction.
pub(crate) fn next_instr<'a>(linked: &'a Linked, state: &State) -> Option<&'a LinkedInstr>
    ensures value { option_map (λ i. instr_of i.now) result ≡ slice_get
        (model.code_in (tests.method_of_frame linked.now (state_of state.now).frame))
        state.now.machine.frame.place }
    ensures place { OnSome result (state.now.machine.frame.place < 2 ^ 32 - 1) }
{
    let method = method_at(linked, state.class(), state.method())?;
    method.code.as_slice().get(state.place() as usize)
}

/// Takes a step of the role `me`. After an error nothing has changed.
pub(crate) fn take_step(
    state: &mut State,
    alloc: Global,
    linked: &Linked,
    ports: &mut Ports,
    me: u32,
) -> Result<Stepped, Memory>
    ensures ok { IfOk result (λ s. Does (model.step linked.now me (state_of state.old) ports.old)
        (state_of state.old) ports.old (state_of state.new) ports.new s) }
    ensures err { OnErr result (state_of state.new ≡ state_of state.old) }
    ensures err_ports { OnErr result (ports.new ≡ ports.old) }
    ensures steady { OnErr result (is_steady (next_action linked.now (state_of state.old)) ≡ false) }
{
    let Some(instr) = next_instr(linked, state) else {
        return Ok(Stepped::Ended(Ending::Bad(BadKind::FellOff)));
    };
    let Some(action) = action_of(instr) else {
        return Ok(Stepped::Ended(Ending::Bad(BadKind::FellOff)));
    };
    act(state, alloc, linked, ports, me, action)
}
