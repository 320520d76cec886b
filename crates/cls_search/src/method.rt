//! One method: whether it has a typing.

ghost use Rattle.std.specs.Prelude.{◌≡◌, ℕ, ◌<◌, ◌≤◌, length, replicate, None, IfOk};
ghost use Rattle.vm_model.specs.Program.{Program};
ghost use Rattle.vm_model.specs.View.{method_of};
ghost use Rattle.cls_search.specs.Beginning.{IsBegun, MethodIs, TypableIs};
ghost use Rattle.cls_search.specs.Setting.{Setting};
ghost use Rattle.cls_search.specs.Walking.{HasBegun, SearchIs};

use crate::begin::first_row;
use crate::joins::join_marks;
use crate::leading::Found;
use crate::waiting::Waiting;
use crate::walk::Body;
use cls_kinds::Stacks;
use cls_rows::{Frame, Scene};
use cls_table::{MethodKinds, ProgramKinds};
use mg_text::Memory;
use std::alloc::Global;
use std::rc::Rc;
use vm_model::LinkedMethod;

/// No kinds at any place of a code of so many instructions.
fn no_frames(alloc: Global, count: usize) -> Result<Vec<Option<Frame>>, Memory>
    ensures { IfOk result (λ v. v.items ≡ replicate count None) }
{
    let mut frames = Vec::with_capacity(alloc, count)?;
    for _place in 0..count {
        frames.push(None)?;
    }
    Ok(frames)
}

/// The arguments at the first place, which waits.
fn begun(alloc: Global, method: &LinkedMethod, kinds: &MethodKinds) -> Result<Found, Memory>
    requires fits { length kinds.now.takes.items ≤ method.now.max_locals }
    requires some { 0 < length method.now.code.items }
    ensures { IfOk result (λ f. IsBegun (method_of method.now) kinds.now.takes.items f) }
{
    let row = first_row(alloc, method, kinds.takes.as_slice())?;
    let locals = Rc::new(alloc, row)?;
    let count = method.code.len();
    let frames = no_frames(alloc, count)?;
    let waiting = Waiting::new(alloc, count)?;
    let stacks = Stacks::new(alloc, count.saturating_mul(2))?;
    let mut found = Found {
        frames,
        waiting,
        stacks,
    };
    found.keep(
        0,
        Frame {
            locals,
            operands: 0,
        },
    )?;
    Ok(found)
}

/// Follows places until none waits.
fn settles(alloc: Global, found: &mut Found, body: Body<'_>) -> Result<bool, Memory>
    requires { (s : Setting) × HasBegun s found.old body }
    ensures { IfOk result (λ b. (s : Setting) → HasBegun s found.old body.entry → SearchIs s b) }
{
    'waiting: loop {
        let Some(place) = found.waiting.take() else {
            return Ok(true);
        };
        let goes_on = found.walk(alloc, body, place)?;
        if !goes_on {
            return Ok(false);
        }
    }
}

/// Whether a method has a typing.
pub(crate) fn is_typable(
    alloc: Global,
    program: &ProgramKinds,
    method: &LinkedMethod,
    kinds: &MethodKinds,
) -> Result<bool, Memory>
    requires { (p : Program) × ((class : ℕ) × ((number : ℕ) × MethodIs p class number program.now (method_of method.now) kinds.now)) }
    ensures { IfOk result (λ b. (p : Program) (class number : ℕ) → MethodIs p class number program.now (method_of method.now) kinds.now →
        TypableIs p class number (method_of method.now) b) }
{
    if kinds.takes.len() > usize::from(method.max_locals) {
        return Ok(false);
    }
    let code = method.code.as_slice();
    if code.is_empty() {
        return Ok(false);
    }
    let joins = join_marks(alloc, code)?;
    let mut found = begun(alloc, method, kinds)?;
    let scene = Scene {
        program,
        result: kinds.result,
        max_stack: usize::from(method.max_stack),
    };
    let body = Body {
        scene,
        code,
        joins: joins.as_slice(),
    };
    settles(alloc, &mut found, body)
}
