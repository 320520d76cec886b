//! A row for each action: what it takes, what it gives, and what it names.

ghost use Rattle.std.specs.Prelude.{◌≡◌, ◌<◌, ◌≤◌, true, Some, length, slice_get, IfOk, OnOk, IfSome, IfNone};
ghost use Rattle.vm_model.specs.Actions as model;
ghost use Rattle.vm_actions.specs.Table.{sort_of, calling_of, plain_of, action_of};
ghost use Rattle.std.specs.Option.{option_map};
ghost use Rattle.cls_kinds.specs.declared.kind.Kind.{Kind as Held};
ghost use Rattle.cls_kinds.specs.Stacks.{stack_at, Grows};
ghost use Rattle.cls_table.specs.declared.classes.MethodKinds.{MethodKinds as Method};
ghost use Rattle.cls_rows.specs.Coming.{Comes, suits_in};

use crate::frame::{Frame, Scene};
use crate::locals::{increase, load, store};
use crate::settling::{double, settle, settle_on, swap};
use crate::trades::{built_trade, plain_trade};
use crate::want::{Want, take_kinds};
use cls_kinds::{Kind, Stacks};
use cls_table::{ClassKinds, MethodKinds};
use mg_text::Memory;
use std::alloc::Global;
use vm_actions::{Action, Calling, Plain, Sort};

/// An instruction that stays in its frame.
fn plain_row(
    alloc: Global,
    scene: Scene<'_>,
    stacks: &mut Stacks,
    frame: Frame,
    plain: Plain<'_>,
    slot: usize,
) -> Result<Option<Frame>, Memory>
    requires there { frame.operands < length stacks.old }
    requires fits { length (stack_at stacks.old frame.operands) ≤ scene.max_stack }
    ensures grows { OnOk result (Grows stacks.old stacks.new) }
    ensures comes { IfOk result (λ o. Comes scene.entry stacks.old stacks.new frame (plain_of plain.entry) o) }
{
    match plain {
        Plain::Load(sort, local) => load(scene.max_stack, stacks, frame, sort, local, slot),
        Plain::Store(sort, local) => store(alloc, stacks, frame, sort, local),
        Plain::Double => double(scene.max_stack, stacks, frame, slot),
        Plain::Swap => swap(scene.max_stack, stacks, frame, slot),
        Plain::Increase(local, _) => Ok(increase(frame, local)),
        Plain::Go(_) => Ok(Some(frame)),
        _ => {
            let trade = plain_trade(plain);
            settle(
                scene.max_stack,
                stacks,
                frame,
                trade.takes,
                trade.gives,
                slot,
            )
        }
    }
}

/// A return: of a value that fits the result, or of none where there is no result.
fn return_row(
    scene: Scene<'_>,
    stacks: &mut Stacks,
    frame: Frame,
    sort: Option<Sort>,
    slot: usize,
) -> Result<Option<Frame>, Memory>
    requires there { frame.operands < length stacks.old }
    requires fits { length (stack_at stacks.old frame.operands) ≤ scene.max_stack }
    ensures grows { OnOk result (Grows stacks.old stacks.new) }
    ensures comes { IfOk result (λ o. Comes scene.entry stacks.old stacks.new frame (model.Return (option_map sort_of sort)) o) }
{
    match (sort, scene.result) {
        (None, None) => Ok(Some(frame)),
        (Some(sort), Some(kind)) => {
            let wants = [Want::Returned(sort, kind)];
            settle(scene.max_stack, stacks, frame, &wants, None, slot)
        }
        (None, Some(_)) | (Some(_), None) => Ok(None),
    }
}

/// The kind of a field of the program's own class.
fn own_field(class: &ClassKinds, field: u32) -> Option<Kind>
    ensures found { IfSome result (λ k. (slice_get class.now.fields.items field ≡ Some (Some k)) × (class.now.is_own ≡ true)) }
    ensures none { IfNone result ((k : Held) → slice_get class.now.fields.items field ≡ Some (Some k) → class.now.is_own ≡ true → ⊥) }
{
    if !class.is_own {
        return None;
    }
    *class.fields.get(field as usize)?
}

/// Reads a field of the program's own class.
fn read_row(
    scene: Scene<'_>,
    stacks: &mut Stacks,
    frame: Frame,
    class: u32,
    field: u32,
    slot: usize,
) -> Result<Option<Frame>, Memory>
    requires there { frame.operands < length stacks.old }
    requires fits { length (stack_at stacks.old frame.operands) ≤ scene.max_stack }
    ensures grows { OnOk result (Grows stacks.old stacks.new) }
    ensures comes { IfOk result (λ o. Comes scene.entry stacks.old stacks.new frame (model.Read class field) o) }
{
    let Some(kept) = scene.program.class(class) else {
        return Ok(None);
    };
    let Some(kind) = own_field(kept, field) else {
        return Ok(None);
    };
    let wants = [Want::Of(kept.kind)];
    settle(scene.max_stack, stacks, frame, &wants, Some(kind), slot)
}

/// Writes a field of the program's own class.
fn write_row(
    scene: Scene<'_>,
    stacks: &mut Stacks,
    frame: Frame,
    class: u32,
    field: u32,
    slot: usize,
) -> Result<Option<Frame>, Memory>
    requires there { frame.operands < length stacks.old }
    requires fits { length (stack_at stacks.old frame.operands) ≤ scene.max_stack }
    ensures grows { OnOk result (Grows stacks.old stacks.new) }
    ensures comes { IfOk result (λ o. Comes scene.entry stacks.old stacks.new frame (model.Write class field) o) }
{
    let Some(kept) = scene.program.class(class) else {
        return Ok(None);
    };
    let Some(kind) = own_field(kept, field) else {
        return Ok(None);
    };
    let wants = [Want::Of(kept.kind), Want::Of(kind)];
    settle(scene.max_stack, stacks, frame, &wants, None, slot)
}

/// Makes an object.
fn make_row(
    scene: Scene<'_>,
    stacks: &mut Stacks,
    frame: Frame,
    class: u32,
    slot: usize,
) -> Result<Option<Frame>, Memory>
    requires there { frame.operands < length stacks.old }
    requires fits { length (stack_at stacks.old frame.operands) ≤ scene.max_stack }
    ensures grows { OnOk result (Grows stacks.old stacks.new) }
    ensures comes { IfOk result (λ o. Comes scene.entry stacks.old stacks.new frame (model.Make class) o) }
{
    let Some(kept) = scene.program.class(class) else {
        return Ok(None);
    };
    settle(scene.max_stack, stacks, frame, &[], Some(kept.kind), slot)
}

/// Whether a method may be called so: on an object exactly where it isn't static, and then no
/// built-in class has the name of its class.
fn suits(calling: Calling, is_static: bool, is_built_in: bool) -> bool
    ensures { result ≡ suits_in calling is_static is_built_in }
{
    match calling {
        Calling::Static => is_static,
        Calling::Telling | Calling::Silent => !is_static && !is_built_in,
    }
}

/// The method of a number, where it may be called so and has locals for all that it takes.
fn callable<'a>(class: &'a ClassKinds, calling: Calling, method: u32) -> Option<&'a MethodKinds>
    ensures found { IfSome result (λ x. (slice_get class.now.methods.items method ≡ Some x.now)
        × ((length x.now.takes.items ≤ x.now.max_locals) × (suits_in calling x.now.is_static class.now.is_built_in ≡ true))) }
    ensures none { IfNone result ((x : Method) → slice_get class.now.methods.items method ≡ Some x → length x.takes.items ≤ x.max_locals →
        suits_in calling x.is_static class.now.is_built_in ≡ true → ⊥) }
{
    let found = class.methods.get(method as usize)?;
    let fits = found.takes.len() <= usize::from(found.max_locals);
    if fits && suits(calling, found.is_static, class.is_built_in) {
        Some(found)
    } else {
        None
    }
}

/// Calls a method. What it answers must have room behind the call.
fn call_row(
    scene: Scene<'_>,
    stacks: &mut Stacks,
    frame: Frame,
    calling: Calling,
    class: u32,
    method: u32,
    slot: usize,
) -> Result<Option<Frame>, Memory>
    requires there { frame.operands < length stacks.old }
    requires fits { length (stack_at stacks.old frame.operands) ≤ scene.max_stack }
    ensures grows { OnOk result (Grows stacks.old stacks.new) }
    ensures comes { IfOk result (λ o. Comes scene.entry stacks.old stacks.new frame (model.Call (calling_of calling) class method) o) }
{
    let Some(kept) = scene.program.class(class) else {
        return Ok(None);
    };
    let Some(called) = callable(kept, calling, method) else {
        return Ok(None);
    };
    let Some(below) = take_kinds(stacks, frame.operands, called.takes.as_slice()) else {
        return Ok(None);
    };
    settle_on(scene.max_stack, stacks, frame, below, called.result, slot)
}

/// What an instruction leaves of the kinds that it finds. None comes exactly where its row isn't
/// met by all values of these kinds.
///
/// # Errors
/// `Memory` only.
pub fn row(
    alloc: Global,
    scene: Scene<'_>,
    stacks: &mut Stacks,
    frame: Frame,
    action: Action<'_>,
    slot: usize,
) -> Result<Option<Frame>, Memory>
    requires there { frame.operands < length stacks.old }
    requires fits { length (stack_at stacks.old frame.operands) ≤ scene.max_stack }
    ensures grows { OnOk result (Grows stacks.old stacks.new) }
    ensures comes { IfOk result (λ o. Comes scene.entry stacks.old stacks.new frame (action_of action.entry) o) }
{
    match action {
        Action::Plain(plain) => plain_row(alloc, scene, stacks, frame, plain, slot),
        Action::Return(sort) => return_row(scene, stacks, frame, sort, slot),
        Action::Read { class, field } => read_row(scene, stacks, frame, class, field, slot),
        Action::Write { class, field } => write_row(scene, stacks, frame, class, field, slot),
        Action::Make(class) => make_row(scene, stacks, frame, class, slot),
        Action::Call {
            calling,
            class,
            method,
        } => call_row(scene, stacks, frame, calling, class, method, slot),
        Action::Use(built) => {
            let trade = built_trade(built);
            settle(
                scene.max_stack,
                stacks,
                frame,
                trade.takes,
                trade.gives,
                slot,
            )
        }
    }
}
