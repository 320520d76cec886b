//! Instructions that take operands and push one kind at most, and leave the locals.

ghost use Rattle.std.specs.Prelude.{◌≡◌, ◌<◌, ◌≤◌, ◌++◌, ◌∷◌, [], List, length, option_to_list, IfOk, OnOk, MatchOption};
ghost use Rattle.cls_kinds.specs.declared.kind.Kind.{Kind as Held};
ghost use Rattle.cls_kinds.specs.Stacks.{stack_at, Grows};
ghost use Rattle.cls_rows.specs.Wants.{IsTaken};
ghost use Rattle.cls_rows.specs.Settling.{Settles, CanSettle, GoesOn};
ghost use Rattle.cls_rows.specs.Changes.{CanDouble, Doubles, CanSwap, Swaps};

use crate::frame::Frame;
use crate::want::{Want, take};
use cls_kinds::{Kind, Stacks};
use mg_text::Memory;

/// Goes on with these operands and what is given, where at most so many operands stand then.
pub(crate) fn settle_on(
    limit: usize,
    stacks: &mut Stacks,
    mut frame: Frame,
    below: u32,
    gives: Option<Kind>,
    slot: usize,
) -> Result<Option<Frame>, Memory>
    requires there { below < length stacks.old }
    requires fits { length (stack_at stacks.old below) ≤ limit }
    ensures grows { OnOk result (Grows stacks.old stacks.new) }
    ensures settled { IfOk result (λ o. MatchOption o (length (stack_at stacks.old below ++ option_to_list gives) ≤ limit → ⊥)
        (λ g. GoesOn stacks.old stacks.new limit below (option_to_list gives) frame g)) }
{
    let Some(kind) = gives else {
        frame.operands = below;
        return Ok(Some(frame));
    };
    if stacks.depth(below) >= limit {
        return Ok(None);
    }
    let operands = stacks.push(below, kind, slot)?;
    frame.operands = operands;
    Ok(Some(frame))
}

/// Takes operands and gives a kind, or none.
pub(crate) fn settle(
    limit: usize,
    stacks: &mut Stacks,
    frame: Frame,
    wants: &[Want],
    gives: Option<Kind>,
    slot: usize,
) -> Result<Option<Frame>, Memory>
    requires there { frame.operands < length stacks.old }
    requires fits { length (stack_at stacks.old frame.operands) ≤ limit }
    ensures grows { OnOk result (Grows stacks.old stacks.new) }
    ensures settled { IfOk result (λ o. MatchOption o (CanSettle stacks.old limit wants.now (option_to_list gives) frame →
        ⊥) (λ g. Settles stacks.old stacks.new limit wants.now (option_to_list gives) frame g)) }
{
    let Some(below) = take(stacks, frame.operands, wants) else {
        return Ok(None);
    };
    settle_on(limit, stacks, frame, below, gives, slot)
}

/// Doubles the topmost operand.
pub(crate) fn double(
    limit: usize,
    stacks: &mut Stacks,
    frame: Frame,
    slot: usize,
) -> Result<Option<Frame>, Memory>
    requires there { frame.operands < length stacks.old }
    requires fits { length (stack_at stacks.old frame.operands) ≤ limit }
    ensures grows { OnOk result (Grows stacks.old stacks.new) }
    ensures doubled { IfOk result (λ o. MatchOption o (CanDouble stacks.old limit frame → ⊥)
        (λ g. Doubles stacks.old stacks.new limit frame g)) }
{
    let Some(top) = stacks.top(frame.operands) else {
        return Ok(None);
    };
    let below = frame.operands;
    settle_on(limit, stacks, frame, below, Some(top.kind), slot)
}

/// Swaps the two topmost operands.
pub(crate) fn swap(
    limit: usize,
    stacks: &mut Stacks,
    frame: Frame,
    slot: usize,
) -> Result<Option<Frame>, Memory>
    requires there { frame.operands < length stacks.old }
    requires fits { length (stack_at stacks.old frame.operands) ≤ limit }
    ensures grows { OnOk result (Grows stacks.old stacks.new) }
    ensures swapped { IfOk result (λ o. MatchOption o (CanSwap stacks.old frame → ⊥) (λ g. Swaps stacks.old stacks.new frame g)) }
{
    let Some(first) = stacks.top(frame.operands) else {
        return Ok(None);
    };
    let Some(second) = stacks.top(first.below) else {
        return Ok(None);
    };
    let lower = stacks.push(second.below, first.kind, slot.saturating_add(1))?;
    settle_on(limit, stacks, frame, lower, Some(second.kind), slot)
}
