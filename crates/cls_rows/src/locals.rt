//! Instructions that read or change a local.

ghost use Rattle.std.specs.Prelude.{◌≡◌, ◌<◌, ◌≤◌, true, false, Some, None, length, slice_get, slice_set, IfOk, OnOk, IfSome, IfNone};
ghost use Rattle.std.specs.Prelude.{MatchOption};
ghost use Rattle.cls_kinds.specs.declared.kind.Kind.{Kind as Held};
ghost use Rattle.cls_kinds.specs.Stacks.{stack_at, Grows};
ghost use Rattle.cls_rows.specs.Wants.{sorted};
ghost use Rattle.cls_rows.specs.Changes.{CanRead, CanLoad, Loads, CanStore, Stores};

use crate::frame::Frame;
use crate::settling::settle_on;
use crate::want::is_of_sort;
use cls_kinds::{Kind, Stacks};
use mg_text::Memory;
use std::alloc::Global;
use std::rc::Rc;
use vm_actions::Sort;

/// Whether a local has this kind, or there is no such local.
fn is_held(locals: &[Kind], local: usize, kind: Kind) -> bool
    ensures same { result ≡ true → slice_set locals.now local kind ≡ locals.now }
    ensures within { result ≡ false → local < length locals.now }
{
    match locals.get(local) {
        Some(held) => held.0 == kind.0,
        None => true,
    }
}

/// Locals, to be changed: they are copied where another place shares them.
fn owned(locals: Rc<Vec<Kind>>) -> Result<Vec<Kind>, Memory>
    ensures { IfOk result (λ row. row.items ≡ locals.value.items) }
{
    match Rc::try_unwrap(locals) {
        Ok(row) => Ok(row),
        Err(shared) => Ok(shared.as_ref().clone()?),
    }
}

/// The locals with another kind in one of them. Nothing is copied where it has that kind, or where
/// no other place shares the locals.
fn stored(
    alloc: Global,
    locals: Rc<Vec<Kind>>,
    local: usize,
    kind: Kind,
) -> Result<Rc<Vec<Kind>>, Memory>
    ensures { IfOk result (λ row. row.value.items ≡ slice_set locals.value.items local kind) }
{
    if is_held(locals.as_ref().as_slice(), local, kind) {
        return Ok(locals);
    }
    let mut row = owned(locals)?;
    row[local] = kind;
    Ok(Rc::new(alloc, row)?)
}

/// The kind of a local, where each value of it is of a sort.
fn read(locals: &[Kind], sort: Sort, local: u8) -> Option<Kind>
    ensures held { IfSome result (λ k. (slice_get locals.now local ≡ Some k) × (sorted sort k ≡ true)) }
    ensures refused { IfNone result ((k : Held) → slice_get locals.now local ≡ Some k → sorted sort k ≡ true → ⊥) }
{
    let kind = *locals.get(usize::from(local))?;
    if is_of_sort(sort, kind) {
        Some(kind)
    } else {
        None
    }
}

/// Pushes a local.
pub(crate) fn load(
    limit: usize,
    stacks: &mut Stacks,
    frame: Frame,
    sort: Sort,
    local: u8,
    slot: usize,
) -> Result<Option<Frame>, Memory>
    requires there { frame.operands < length stacks.old }
    requires fits { length (stack_at stacks.old frame.operands) ≤ limit }
    ensures grows { OnOk result (Grows stacks.old stacks.new) }
    ensures loaded { IfOk result (λ o. MatchOption o (CanLoad stacks.old limit sort local frame → ⊥)
        (λ g. Loads stacks.old stacks.new limit sort local frame g)) }
{
    let Some(kind) = read(frame.locals.as_ref().as_slice(), sort, local) else {
        return Ok(None);
    };
    let below = frame.operands;
    settle_on(limit, stacks, frame, below, Some(kind), slot)
}

/// Takes the topmost operand into a local.
pub(crate) fn store(
    alloc: Global,
    stacks: &Stacks,
    frame: Frame,
    sort: Sort,
    local: u8,
) -> Result<Option<Frame>, Memory>
    requires { frame.operands < length stacks.now }
    ensures { IfOk result (λ o. MatchOption o (CanStore stacks.now sort local frame → ⊥) (λ g. Stores stacks.now sort local frame g)) }
{
    let Some(top) = stacks.top(frame.operands) else {
        return Ok(None);
    };
    if !is_of_sort(sort, top.kind) {
        return Ok(None);
    }
    let local = usize::from(local);
    if local >= frame.locals.as_ref().len() {
        return Ok(None);
    }
    let locals = stored(alloc, frame.locals, local, top.kind)?;
    Ok(Some(Frame {
        locals,
        operands: top.below,
    }))
}

/// Adds to a local, which is an int and stays one.
pub(crate) fn increase(frame: Frame, local: u8) -> Option<Frame>
    ensures { MatchOption result (CanRead Sort.Number local frame → ⊥) (λ g. (g ≡ frame) × CanRead Sort.Number local frame) }
{
    let _kind = read(frame.locals.as_ref().as_slice(), Sort::Number, local)?;
    Some(frame)
}
