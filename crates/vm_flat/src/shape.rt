//! What an instruction becomes: a row for each action that fits eight bytes.

ghost use Rattle.std.specs.Prelude.{◌≡◌, Some, option_map, IfSome};
ghost use Rattle.vm_model.specs.Actions as model;
ghost use Rattle.vm_model.specs.View.{instr_of};
ghost use Rattle.vm_actions.specs.Table.{action_of, plain_of, operation_of, comparison_of, calling_of, sort_of};
ghost use Rattle.vm_flat.specs.Flat.{action_of_flat, IsFlatInstr};

use crate::flat::Flat;
use vm_actions::{Action, Calling, Comparison, Constant, Operation, Plain, Sort, action_of};
use vm_model::{Built, LinkedInstr};

/// Pushes a value that stands in the code.
fn flat_push(constant: Constant<'_>) -> Flat
    ensures { IfSome (action_of_flat result) (λ a. a ≡ plain_of (Plain.Push constant.entry)) }
{
    match constant {
        Constant::Int(x) => Flat::Int(x),
        Constant::Null => Flat::Null,
        Constant::Text(_) => Flat::Other,
    }
}

/// Computes two ints.
fn flat_compute(operation: Operation) -> Flat
    ensures { action_of_flat result ≡ Some (model.Compute (operation_of operation)) }
{
    match operation {
        Operation::Plus => Flat::Plus,
        Operation::Minus => Flat::Minus,
        Operation::Times => Flat::Times,
        Operation::Divide => Flat::Divide,
        Operation::Remain => Flat::Remain,
    }
}

/// A jump where the int on top compares so with 0.
fn flat_on_zero(comparison: Comparison, target: u32) -> Flat
    ensures { action_of_flat result ≡ Some (model.IfZero (comparison_of comparison) target) }
{
    match comparison {
        Comparison::Equal => Flat::IfZeroEqual(target),
        Comparison::Unequal => Flat::IfZeroUnequal(target),
        Comparison::Less => Flat::IfZeroLess(target),
        Comparison::AtLeast => Flat::IfZeroAtLeast(target),
        Comparison::Greater => Flat::IfZeroGreater(target),
        Comparison::AtMost => Flat::IfZeroAtMost(target),
    }
}

/// A jump where the two ints on top compare so.
fn flat_on_both(comparison: Comparison, target: u32) -> Flat
    ensures { action_of_flat result ≡ Some (model.IfBoth (comparison_of comparison) target) }
{
    match comparison {
        Comparison::Equal => Flat::IfBothEqual(target),
        Comparison::Unequal => Flat::IfBothUnequal(target),
        Comparison::Less => Flat::IfBothLess(target),
        Comparison::AtLeast => Flat::IfBothAtLeast(target),
        Comparison::Greater => Flat::IfBothGreater(target),
        Comparison::AtMost => Flat::IfBothAtMost(target),
    }
}

/// A jump where the reference on top is null, or where it isn't.
fn flat_on_null(wanted: bool, target: u32) -> Flat
    ensures { action_of_flat result ≡ Some (model.IfNull wanted target) }
{
    if wanted {
        Flat::IfNull(target)
    } else {
        Flat::IfNotNull(target)
    }
}

/// What stays in its frame.
fn flat_plain(plain: Plain<'_>) -> Flat
    ensures { IfSome (action_of_flat result) (λ a. a ≡ plain_of plain.entry) }
{
    match plain {
        Plain::Push(constant) => flat_push(constant),
        Plain::Load(sort, local) => Flat::Load(sort, local),
        Plain::Store(sort, local) => Flat::Store(sort, local),
        Plain::Pop => Flat::Pop,
        Plain::Double => Flat::Double,
        Plain::Swap => Flat::Swap,
        Plain::Compute(operation) => flat_compute(operation),
        Plain::Negate => Flat::Negate,
        Plain::Increase(local, by) => Flat::Increase(local, *by),
        Plain::IfZero(comparison, target) => flat_on_zero(comparison, target),
        Plain::IfBoth(comparison, target) => flat_on_both(comparison, target),
        Plain::IfNull(wanted, target) => flat_on_null(wanted, target),
        Plain::Go(target) => Flat::Go(target),
        Plain::Switch { .. } => Flat::Other,
    }
}

/// A return, of a value of this sort or of none.
fn flat_return(sort: Option<Sort>) -> Flat
    ensures { action_of_flat result ≡ Some (model.Return (option_map sort_of sort)) }
{
    match sort {
        Some(sort) => Flat::Return(sort),
        None => Flat::ReturnNothing,
    }
}

/// Reads a field.
fn flat_read(class: u32, field: u32) -> Flat
    ensures { IfSome (action_of_flat result) (λ a. a ≡ model.Read class field) }
{
    if class > 0xffff {
        return Flat::Other;
    }
    Flat::Read {
        class: class as u16,
        field,
    }
}

/// Writes a field.
fn flat_write(class: u32, field: u32) -> Flat
    ensures { IfSome (action_of_flat result) (λ a. a ≡ model.Write class field) }
{
    if class > 0xffff {
        return Flat::Other;
    }
    Flat::Write {
        class: class as u16,
        field,
    }
}

/// Calls a method.
fn flat_call(calling: Calling, class: u32, method: u32) -> Flat
    ensures { IfSome (action_of_flat result) (λ a. a ≡ model.Call (calling_of calling) class method) }
{
    if class > 0xffff {
        return Flat::Other;
    }
    let class = class as u16;
    match calling {
        Calling::Static => Flat::CallStatic { class, method },
        Calling::Silent => Flat::CallSilent { class, method },
        Calling::Telling => Flat::CallTelling { class, method },
    }
}

/// Uses a member of a built-in class.
fn flat_use(built: Built) -> Flat
    ensures { IfSome (action_of_flat result) (λ a. a ≡ model.Use built) }
{
    match built {
        Built::Out => Flat::Out,
        _ => Flat::Other,
    }
}

/// What does this action.
fn flat_of(action: Action<'_>) -> Flat
    ensures { IfSome (action_of_flat result) (λ a. a ≡ action_of action.entry) }
{
    match action {
        Action::Plain(plain) => flat_plain(plain),
        Action::Return(sort) => flat_return(sort),
        Action::Read { class, field } => flat_read(class, field),
        Action::Write { class, field } => flat_write(class, field),
        Action::Call {
            calling,
            class,
            method,
        } => flat_call(calling, class, method),
        Action::Use(built) => flat_use(built),
        Action::Make(_) => Flat::Other,
    }
}

/// What an instruction becomes.
pub(crate) fn flat_instr(instr: &LinkedInstr) -> Flat
    ensures { IsFlatInstr result (instr_of instr.now) }
{
    match action_of(instr) {
        Some(action) => flat_of(action),
        None => Flat::Other,
    }
}
