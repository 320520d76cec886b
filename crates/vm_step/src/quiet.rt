//! Steps with which nothing is wrong and that tell nothing, by the cells where they lie: each instruction is looked at once, and each
//! method where it begins to run. What isn't right, tells something or finds no memory is left to the general tests.

ghost use Rattle.std.specs.Prelude.{◌≡◌, ◌-◌, ◌<◌, ◌≤◌, ◌^◌, Bool, false, Option, None, Some, length, map, option_map, slice_get, IfSome};
ghost use Rattle.std.specs.Prelude.{if◌then◌else◌, OnSome};
ghost use Rattle.std.specs.Bool.{OnTrue};
ghost use Rattle.mg_text.specs.declared.event.BadKind.{BadKind};
ghost use Rattle.vm_model.specs.declared.linked.Built.TheVariants as builts;
ghost use Rattle.vm_model.specs.Actions as actions;
ghost use Rattle.vm_model.specs.Kept.{type_kept};
ghost use Rattle.vm_model.specs.Program.{Program};
ghost use Rattle.vm_model.specs.Program as forms;
ghost use Rattle.vm_model.specs.Tests.{Typed, max_stack_in, method_of_frame, misfits, on_top, some_of};
ghost use Rattle.vm_model.specs.View.{args_of, instr_of, method_of};
ghost use Rattle.vm_session.specs.State.{state_of, operands_of};
ghost use Rattle.vm_actions.specs.Table.{sort_of};
ghost use Rattle.vm_step.specs.Alone.{Alone, Stays, Runs, Leads, LeadsAlone, Tried, Keeps, AllAlone};
ghost use Rattle.vm_step.specs.inner.Calls.{Awaits};

use crate::built::is_text;
use crate::frequent::{
    compute, double, increase, is_of_sort, jump, jump_on_both, jump_on_null, jump_on_zero, load,
    negate, pop, push_constant, store, switch,
};
use crate::needs::{Want, misfit_type};
use crate::program::{field_at, method_at, result_type};
use crate::step::field_want;
use cls_tree::opcodes::*;
use mg_text::Text;
use std::rc::Rc;
use vm_actions::{Comparison, Constant, Operation, Sort};
use vm_frames::{Cell, State};
use vm_model::{Built, Linked, LinkedArgs, LinkedInstr, LinkedMethod, LinkedType};
use vm_session::{text_at, truth};
use vm_typed::enter;

/// The number of an object, where a value is one of the class of this number.
#[inline(always)]
fn object_of(state: &State, cell: Cell, class: u32) -> Option<u32>
    ensures object { IfSome result (λ n. cell ≡ Cell.Object n) }
    ensures class { IfSome result (λ n. option_map (λ o. o.class) (slice_get (state_of state.now).heap n) ≡ Some class) }
{
    let Cell::Object(object) = cell else {
        return None;
    };
    match state.class_of_object(object) {
        Some(found) if found == class => Some(object),
        _ => None,
    }
}

/// Pushes what a field of the object on top holds, in the object's place.
#[inline(always)]
fn read(state: &mut State, max: u16, class: u32, field: u32) -> bool
    requires { state.old.machine.frame.place < 2 ^ 32 - 1 }
    ensures { Alone max (actions.Read class field) (state_of state.old) (state_of state.new) result }
{
    let count = state.depth();
    if count < 1 {
        return false;
    }
    if count > usize::from(max) {
        return false;
    }
    let Some(object) = object_of(state, state.operand(0), class) else {
        return false;
    };
    let Some(cell) = state.field(object, field) else {
        return false;
    };
    let place = state.place() + 1;
    state.put(1, cell, place);
    true
}

/// Takes the value on top into a field of the object under it.
#[inline(always)]
fn write(state: &mut State, linked: &Linked, max: u16, class: u32, field: u32) -> bool
    requires place { state.old.machine.frame.place < 2 ^ 32 - 1 }
    requires room { max_stack_in (method_of_frame linked.now (state_of state.old).frame) ≡ max }
    ensures { Stays linked.now (actions.Write class field) (state_of state.old) (state_of state.new) result }
{
    let count = state.depth();
    if count < 2 {
        return false;
    }
    if count - 2 > usize::from(max) {
        return false;
    }
    let Some(object) = object_of(state, state.operand(1), class) else {
        return false;
    };
    let Want::Typed(wanted) = field_want(field_at(linked, class, field)) else {
        return false;
    };
    let cell = state.operand(0);
    if let Some(_kind) = misfit_type(linked, state, wanted, cell) {
        return false;
    }
    state.set_field(object, field, cell);
    let place = state.place() + 1;
    state.drop(2, place);
    true
}

/// Compares the text under the value on top with it.
#[inline(always)]
fn equals(state: &mut State, max: u16) -> bool
    requires { state.old.machine.frame.place < 2 ^ 32 - 1 }
    ensures { Alone max (actions.Use builts.Equals) (state_of state.old) (state_of state.new) result }
{
    let count = state.depth();
    if count < 2 {
        return false;
    }
    if count - 1 > usize::from(max) {
        return false;
    }
    let Some(text) = text_at(state, 1) else {
        return false;
    };
    let value = state.operand(0);
    if !is_of_sort(Sort::Reference, value) {
        return false;
    }
    let same = truth(is_text(state, text, value));
    let place = state.place() + 1;
    state.put(2, same, place);
    true
}

/// Whether the operands on top meet these types.
#[inline(always)]
fn fit(linked: &Linked, state: &State, params: &[LinkedType]) -> bool
    requires { length params.now ≤ length (operands_of state.now) }
    ensures { OnTrue result ((test : Option BadKind → Bool) → test None ≡ false →
        some_of test (misfits linked.now
        (state_of state.now).heap (map Typed (map type_kept params.now)) (on_top (length params.now) (operands_of state.now))) ≡ false) }
{
    for (at, param) in params.iter().enumerate() {
        let cell = state.operand(params.len() - 1 - at);
        if let Some(_kind) = misfit_type(linked, state, param.field_type(), cell) {
            return false;
        }
    }
    true
}

/// Calls a static method.
#[inline(always)]
fn call_static<'a>(
    state: &mut State,
    linked: &'a Linked,
    class: u32,
    method: u32,
) -> Option<&'a LinkedMethod>
    requires { state.old.machine.frame.place < 2 ^ 32 - 1 }
    ensures { Leads linked.now (actions.Call actions.Static class method) (state_of state.old)
        (state_of state.new) (option_map (λ x. method_of x.now) result) }
{
    let Some(called) = method_at(linked, class, method) else {
        return None;
    };
    let params = called.params.as_slice();
    let taken = params.len();
    if taken > state.depth() {
        return None;
    }
    if taken > usize::from(called.max_locals) {
        return None;
    }
    if !fit(linked, state, params) {
        return None;
    }
    if !enter(state, class, method, taken, called.max_locals) {
        return None;
    }
    Some(called)
}

/// Calls a method of an object that doesn't tell of it.
#[inline(always)]
fn call_silent<'a>(
    state: &mut State,
    linked: &'a Linked,
    class: u32,
    method: u32,
) -> Option<&'a LinkedMethod>
    requires { state.old.machine.frame.place < 2 ^ 32 - 1 }
    ensures { Leads linked.now (actions.Call actions.Silent class method) (state_of state.old)
        (state_of state.new) (option_map (λ x. method_of x.now) result) }
{
    let Some(called) = method_at(linked, class, method) else {
        return None;
    };
    let params = called.params.as_slice();
    let count = params.len();
    if count >= state.depth() {
        return None;
    }
    if count >= usize::from(called.max_locals) {
        return None;
    }
    let Some(_object) = object_of(state, state.operand(count), class) else {
        return None;
    };
    if !fit(linked, state, params) {
        return None;
    }
    if !enter(state, class, method, count + 1, called.max_locals) {
        return None;
    }
    Some(called)
}

/// The method of the nearest frame that waits, where that may have so many operands more.
#[inline(always)]
fn awaiting<'a>(linked: &'a Linked, state: &State, given: usize) -> Option<&'a LinkedMethod>
    requires { given ≤ 1 }
    ensures { IfSome result (λ x. Awaits linked.now given (method_of x.now) (state_of state.now).callers) }
{
    let Some(waiting) = state.waiting() else {
        return None;
    };
    let Some(method) = method_at(linked, waiting.class, waiting.method) else {
        return None;
    };
    if waiting.operands + given > usize::from(method.max_stack) {
        return None;
    }
    Some(method)
}

/// Returns from a method of which no object tells, with no value.
#[inline(always)]
fn return_nothing<'a>(
    state: &mut State,
    linked: &'a Linked,
    method: &LinkedMethod,
) -> Option<&'a LinkedMethod>
    requires told { state.old.machine.frame.told ≡ None }
    requires runs { Runs linked.now (state_of state.old) (method_of method.now) }
    ensures { Leads linked.now (actions.Return None) (state_of state.old) (state_of state.new)
        (option_map (λ x. method_of x.now) result) }
{
    if let Some(_answer) = result_type(Some(method)) {
        return None;
    }
    let Some(next) = awaiting(linked, state, 0) else {
        return None;
    };
    let _left = state.leave(None);
    Some(next)
}

/// The same with a value of this sort.
#[inline(always)]
fn return_value<'a>(
    state: &mut State,
    linked: &'a Linked,
    method: &LinkedMethod,
    sort: Sort,
) -> Option<&'a LinkedMethod>
    requires told { state.old.machine.frame.told ≡ None }
    requires runs { Runs linked.now (state_of state.old) (method_of method.now) }
    ensures { Leads linked.now (actions.Return (Some (sort_of sort))) (state_of state.old)
        (state_of state.new) (option_map (λ x. method_of x.now) result) }
{
    let Some(answer) = result_type(Some(method)) else {
        return None;
    };
    if state.depth() < 1 {
        return None;
    }
    let Some(next) = awaiting(linked, state, 1) else {
        return None;
    };
    let value = state.operand(0);
    if !is_of_sort(sort, value) {
        return None;
    }
    if let Some(_kind) = misfit_type(linked, state, answer, value) {
        return None;
    }
    let _left = state.leave(Some(value));
    Some(next)
}

/// Returns from a method of which no object tells.
#[inline(always)]
fn return_from<'a>(
    state: &mut State,
    linked: &'a Linked,
    method: &LinkedMethod,
    sort: Option<Sort>,
) -> Option<&'a LinkedMethod>
    requires runs { Runs linked.now (state_of state.old) (method_of method.now) }
    ensures { Leads linked.now (actions.Return (option_map sort_of sort)) (state_of state.old)
        (state_of state.new) (option_map (λ x. method_of x.now) result) }
{
    if let Some(_object) = state.told() {
        return None;
    }
    match sort {
        None => return_nothing(state, linked, method),
        Some(sort) => return_value(state, linked, method, sort),
    }
}

/// The method that runs, where a step stayed in it.
#[inline(always)]
fn kept(method: &LinkedMethod, stayed: bool) -> Option<&LinkedMethod>
    ensures { option_map (λ x. method_of x.now) result ≡ (if stayed then Some (method_of method.now) else None) }
{
    if stayed { Some(method) } else { None }
}

/// The instruction of a number.
#[inline(always)]
fn instr_at(method: &LinkedMethod, place: u32) -> Option<&LinkedInstr>
    ensures value { option_map (λ i. instr_of i.now) result ≡ slice_get (method_of method.now).code place }
    ensures place { OnSome result (place < 2 ^ 32 - 1) }
{
    method.code.as_slice().get(place as usize)
}

/// Acts on an instruction without arguments that stays in its method, by its opcode, and answers whether nothing was wrong with it.
/// None where it is another.
#[inline(always)]
fn act_by_opcode(state: &mut State, method: &LinkedMethod, instr: &LinkedInstr) -> Option<bool>
    requires place { state.old.machine.frame.place < 2 ^ 32 - 1 }
    requires at { slice_get (method_of method.now).code state.old.machine.frame.place ≡ Some (instr_of instr.now) }
    requires bare { args_of instr.now.args ≡ forms.Nothing }
    ensures { (p : Program) → Runs p (state_of state.old) (method_of method.now) →
        Tried p (state_of state.old) (state_of state.new) (method_of method.now) result }
{
    let max = method.max_stack;
    match instr.op {
        ACONST_NULL => Some(push_constant(state, max, Constant::Null)),
        ICONST_M1 => Some(push_constant(state, max, Constant::Int(-1))),
        ICONST_0 => Some(push_constant(state, max, Constant::Int(0))),
        ICONST_1 => Some(push_constant(state, max, Constant::Int(1))),
        ICONST_2 => Some(push_constant(state, max, Constant::Int(2))),
        ICONST_3 => Some(push_constant(state, max, Constant::Int(3))),
        ICONST_4 => Some(push_constant(state, max, Constant::Int(4))),
        ICONST_5 => Some(push_constant(state, max, Constant::Int(5))),
        ILOAD_0 => Some(load(state, max, Sort::Number, 0)),
        ILOAD_1 => Some(load(state, max, Sort::Number, 1)),
        ILOAD_2 => Some(load(state, max, Sort::Number, 2)),
        ILOAD_3 => Some(load(state, max, Sort::Number, 3)),
        ALOAD_0 => Some(load(state, max, Sort::Reference, 0)),
        ALOAD_1 => Some(load(state, max, Sort::Reference, 1)),
        ALOAD_2 => Some(load(state, max, Sort::Reference, 2)),
        ALOAD_3 => Some(load(state, max, Sort::Reference, 3)),
        ISTORE_0 => Some(store(state, max, Sort::Number, 0)),
        ISTORE_1 => Some(store(state, max, Sort::Number, 1)),
        ISTORE_2 => Some(store(state, max, Sort::Number, 2)),
        ISTORE_3 => Some(store(state, max, Sort::Number, 3)),
        ASTORE_0 => Some(store(state, max, Sort::Reference, 0)),
        ASTORE_1 => Some(store(state, max, Sort::Reference, 1)),
        ASTORE_2 => Some(store(state, max, Sort::Reference, 2)),
        ASTORE_3 => Some(store(state, max, Sort::Reference, 3)),
        POP => Some(pop(state, max)),
        DUP => Some(double(state, max)),
        IADD => Some(compute(state, max, Operation::Plus)),
        ISUB => Some(compute(state, max, Operation::Minus)),
        IMUL => Some(compute(state, max, Operation::Times)),
        IDIV => Some(compute(state, max, Operation::Divide)),
        IREM => Some(compute(state, max, Operation::Remain)),
        INEG => Some(negate(state, max)),
        _ => None,
    }
}

/// Returns from the method that runs, by the opcode of a return.
#[inline(always)]
fn return_by_opcode<'a>(
    state: &mut State,
    linked: &'a Linked,
    method: &LinkedMethod,
    instr: &LinkedInstr,
) -> Option<&'a LinkedMethod>
    requires runs { Runs linked.now (state_of state.old) (method_of method.now) }
    requires at { slice_get (method_of method.now).code state.old.machine.frame.place ≡ Some (instr_of instr.now) }
    requires bare { args_of instr.now.args ≡ forms.Nothing }
    ensures { LeadsAlone linked.now (state_of state.old) (state_of state.new) (option_map (λ x. method_of x.now) result) }
{
    match instr.op {
        IRETURN => return_from(state, linked, method, Some(Sort::Number)),
        ARETURN => return_from(state, linked, method, Some(Sort::Reference)),
        RETURN => return_from(state, linked, method, None),
        _ => None,
    }
}

/// Acts on an instruction without arguments.
#[inline(always)]
fn step_bare<'a>(
    state: &mut State,
    linked: &'a Linked,
    method: &'a LinkedMethod,
    instr: &LinkedInstr,
) -> Option<&'a LinkedMethod>
    requires place { state.old.machine.frame.place < 2 ^ 32 - 1 }
    requires runs { Runs linked.now (state_of state.old) (method_of method.now) }
    requires at { slice_get (method_of method.now).code state.old.machine.frame.place ≡ Some (instr_of instr.now) }
    requires bare { args_of instr.now.args ≡ forms.Nothing }
    ensures { LeadsAlone linked.now (state_of state.old) (state_of state.new) (option_map (λ x. method_of x.now) result) }
{
    match act_by_opcode(state, method, instr) {
        Some(stayed) => kept(method, stayed),
        None => return_by_opcode(state, linked, method, instr),
    }
}

/// Pushes an int of the code, by the opcode, and answers whether nothing was wrong.
#[inline(always)]
fn push_int(state: &mut State, method: &LinkedMethod, instr: &LinkedInstr, value: i32) -> bool
    requires place { state.old.machine.frame.place < 2 ^ 32 - 1 }
    requires at { slice_get (method_of method.now).code state.old.machine.frame.place ≡ Some (instr_of instr.now) }
    requires args { args_of instr.now.args ≡ forms.Int value }
    ensures { Keeps (state_of state.old) (state_of state.new) (method_of method.now) result }
{
    let max = method.max_stack;
    match instr.op {
        BIPUSH => push_constant(state, max, Constant::Int(value)),
        SIPUSH => push_constant(state, max, Constant::Int(value)),
        LDC => push_constant(state, max, Constant::Int(value)),
        LDC_W => push_constant(state, max, Constant::Int(value)),
        _ => false,
    }
}

/// Pushes a text of the code, by the opcode, and answers whether nothing was wrong.
#[inline(always)]
fn push_text(state: &mut State, method: &LinkedMethod, instr: &LinkedInstr, text: &Rc<Text>) -> bool
    requires place { state.old.machine.frame.place < 2 ^ 32 - 1 }
    requires at { slice_get (method_of method.now).code state.old.machine.frame.place ≡ Some (instr_of instr.now) }
    requires args { args_of instr.now.args ≡ forms.Text text.now.value }
    ensures { Keeps (state_of state.old) (state_of state.new) (method_of method.now) result }
{
    match instr.op {
        LDC | LDC_W => push_constant(state, method.max_stack, Constant::Text(text)),
        _ => false,
    }
}

/// Loads or stores a local, by the opcode, and answers whether nothing was wrong.
#[inline(always)]
fn move_local(state: &mut State, method: &LinkedMethod, instr: &LinkedInstr, local: u8) -> bool
    requires place { state.old.machine.frame.place < 2 ^ 32 - 1 }
    requires at { slice_get (method_of method.now).code state.old.machine.frame.place ≡ Some (instr_of instr.now) }
    requires args { args_of instr.now.args ≡ forms.Local local }
    ensures { Keeps (state_of state.old) (state_of state.new) (method_of method.now) result }
{
    let max = method.max_stack;
    match instr.op {
        ILOAD => load(state, max, Sort::Number, local),
        ALOAD => load(state, max, Sort::Reference, local),
        ISTORE => store(state, max, Sort::Number, local),
        ASTORE => store(state, max, Sort::Reference, local),
        _ => false,
    }
}

/// Adds to a local, by the opcode, and answers whether nothing was wrong.
#[inline(always)]
fn add_to_local(
    state: &mut State,
    method: &LinkedMethod,
    instr: &LinkedInstr,
    local: u8,
    by: &i8,
) -> bool
    requires place { state.old.machine.frame.place < 2 ^ 32 - 1 }
    requires at { slice_get (method_of method.now).code state.old.machine.frame.place ≡ Some (instr_of instr.now) }
    requires args { args_of instr.now.args ≡ forms.Add local by.now }
    ensures { Keeps (state_of state.old) (state_of state.new) (method_of method.now) result }
{
    match instr.op {
        IINC => increase(state, method.max_stack, local, by),
        _ => false,
    }
}

/// Jumps or goes on, by the opcode of a jump, and answers whether nothing was wrong.
#[inline(always)]
fn jump_by_opcode(
    state: &mut State,
    method: &LinkedMethod,
    instr: &LinkedInstr,
    target: u32,
) -> bool
    requires place { state.old.machine.frame.place < 2 ^ 32 - 1 }
    requires at { slice_get (method_of method.now).code state.old.machine.frame.place ≡ Some (instr_of instr.now) }
    requires args { args_of instr.now.args ≡ forms.Jump target }
    ensures { Keeps (state_of state.old) (state_of state.new) (method_of method.now) result }
{
    let max = method.max_stack;
    match instr.op {
        IFEQ => jump_on_zero(state, max, Comparison::Equal, target),
        IFNE => jump_on_zero(state, max, Comparison::Unequal, target),
        IFLT => jump_on_zero(state, max, Comparison::Less, target),
        IFGE => jump_on_zero(state, max, Comparison::AtLeast, target),
        IFGT => jump_on_zero(state, max, Comparison::Greater, target),
        IFLE => jump_on_zero(state, max, Comparison::AtMost, target),
        IF_ICMPEQ => jump_on_both(state, max, Comparison::Equal, target),
        IF_ICMPNE => jump_on_both(state, max, Comparison::Unequal, target),
        IF_ICMPLT => jump_on_both(state, max, Comparison::Less, target),
        IF_ICMPGE => jump_on_both(state, max, Comparison::AtLeast, target),
        IF_ICMPGT => jump_on_both(state, max, Comparison::Greater, target),
        IF_ICMPLE => jump_on_both(state, max, Comparison::AtMost, target),
        GOTO => jump(state, max, target),
        IFNULL => jump_on_null(state, max, true, target),
        IFNONNULL => jump_on_null(state, max, false, target),
        _ => false,
    }
}

/// Jumps by a table, by the opcode, and answers whether nothing was wrong.
#[inline(always)]
fn switch_by_opcode(
    state: &mut State,
    method: &LinkedMethod,
    instr: &LinkedInstr,
    default: u32,
    low: &i32,
    targets: &[u32],
) -> bool
    requires place { state.old.machine.frame.place < 2 ^ 32 - 1 }
    requires at { slice_get (method_of method.now).code state.old.machine.frame.place ≡ Some (instr_of instr.now) }
    requires args { args_of instr.now.args ≡ forms.Table default low.now targets.now }
    ensures { Keeps (state_of state.old) (state_of state.new) (method_of method.now) result }
{
    match instr.op {
        TABLESWITCH => switch(state, method.max_stack, default, low, targets),
        _ => false,
    }
}

/// Reads or writes a field, by the opcode, and answers whether nothing was wrong.
#[inline(always)]
fn use_field(
    state: &mut State,
    linked: &Linked,
    method: &LinkedMethod,
    instr: &LinkedInstr,
    class: u32,
    field: u32,
) -> bool
    requires place { state.old.machine.frame.place < 2 ^ 32 - 1 }
    requires runs { Runs linked.now (state_of state.old) (method_of method.now) }
    requires at { slice_get (method_of method.now).code state.old.machine.frame.place ≡ Some (instr_of instr.now) }
    requires args { args_of instr.now.args ≡ forms.Field class field }
    ensures { LeadsAlone linked.now (state_of state.old) (state_of state.new) (if result then Some (method_of method.now) else None) }
{
    match instr.op {
        GETFIELD => read(state, method.max_stack, class, field),
        PUTFIELD => write(state, linked, method.max_stack, class, field),
        _ => false,
    }
}

/// Calls a method of which no object tells, by the opcode of the call.
#[inline(always)]
fn call_by_opcode<'a>(
    state: &mut State,
    linked: &'a Linked,
    running: &LinkedMethod,
    instr: &LinkedInstr,
    class: u32,
    method: u32,
) -> Option<&'a LinkedMethod>
    requires place { state.old.machine.frame.place < 2 ^ 32 - 1 }
    requires runs { Runs linked.now (state_of state.old) (method_of running.now) }
    requires at { slice_get (method_of running.now).code state.old.machine.frame.place ≡ Some (instr_of instr.now) }
    requires args { args_of instr.now.args ≡ forms.Method class method }
    ensures { LeadsAlone linked.now (state_of state.old) (state_of state.new) (option_map (λ x. method_of x.now) result) }
{
    match instr.op {
        INVOKESTATIC => call_static(state, linked, class, method),
        INVOKESPECIAL => call_silent(state, linked, class, method),
        _ => None,
    }
}

/// Uses a member of a built-in class, by the opcode, and answers whether nothing was wrong.
#[inline(always)]
fn use_built(state: &mut State, method: &LinkedMethod, instr: &LinkedInstr, built: Built) -> bool
    requires place { state.old.machine.frame.place < 2 ^ 32 - 1 }
    requires at { slice_get (method_of method.now).code state.old.machine.frame.place ≡ Some (instr_of instr.now) }
    requires args { args_of instr.now.args ≡ forms.Built built }
    ensures { Keeps (state_of state.old) (state_of state.new) (method_of method.now) result }
{
    match built {
        Built::Equals if instr.op == INVOKEVIRTUAL => equals(state, method.max_stack),
        _ => false,
    }
}

/// Acts on the next instruction of the method that runs, by the form of its arguments, and answers the method that runs then, where
/// nothing is wrong with it and it tells nothing. Else nothing changes.
#[inline(always)]
fn step_quietly<'a>(
    state: &mut State,
    linked: &'a Linked,
    method: &'a LinkedMethod,
) -> Option<&'a LinkedMethod>
    requires { Runs linked.now (state_of state.old) (method_of method.now) }
    ensures { LeadsAlone linked.now (state_of state.old) (state_of state.new)
        (option_map (λ x. method_of x.now) result) }
{
    let Some(instr) = instr_at(method, state.place()) else {
        return None;
    };
    match &instr.args {
        LinkedArgs::None => step_bare(state, linked, method, instr),
        LinkedArgs::Int(value) => kept(method, push_int(state, method, instr, *value)),
        LinkedArgs::Text(text) => kept(method, push_text(state, method, instr, text)),
        LinkedArgs::Local(local) => kept(method, move_local(state, method, instr, *local)),
        LinkedArgs::Add(local, by) => {
            kept(method, add_to_local(state, method, instr, *local, by))
        }
        LinkedArgs::Jump(target) => kept(method, jump_by_opcode(state, method, instr, *target)),
        LinkedArgs::Table {
            default,
            low,
            targets,
        } => kept(
            method,
            switch_by_opcode(state, method, instr, *default, low, targets.as_slice()),
        ),
        LinkedArgs::Class(_) => None,
        LinkedArgs::Field { class, field } => kept(
            method,
            use_field(state, linked, method, instr, *class, *field),
        ),
        LinkedArgs::Method {
            class,
            method: called,
        } => call_by_opcode(state, linked, method, instr, *class, *called),
        LinkedArgs::Built(built) => kept(method, use_built(state, method, instr, *built)),
    }
}

/// Takes steps that look at no message and tell nothing, at most so many, up to the first with which
/// something is wrong or for which memory lacks, and answers how many they were.
pub(crate) fn steps_alone(state: &mut State, linked: &Linked, most: u32) -> u32
    ensures most { result ≤ most }
    ensures steps { AllAlone linked.now (state_of state.old) result (state_of state.new) }
{
    let Some(first) = method_at(linked, state.class(), state.method()) else {
        return 0;
    };
    let mut method = first;
    for taken in 0..most {
        match step_quietly(state, linked, method) {
            Some(next) => method = next,
            None => return taken,
        }
    }
    most
}
