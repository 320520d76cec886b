//! What an operand must be, in kinds.

ghost use Rattle.std.specs.Prelude.{◌≡◌, ◌<◌, length, map, IfSome, IfNone};
ghost use Rattle.cls_kinds.specs.Stacks.{stack_at};
ghost use Rattle.cls_rows.specs.declared.want.Want.TheVariants as wants_of;
ghost use Rattle.cls_rows.specs.Wants.{sorted, passes_in, IsTaken, CanTake};

use cls_kinds::{Kind, Stacks};
use vm_actions::Sort;

/// What an operand must be.
#[derive(Clone, Copy)]
pub(crate) enum Want {
    Any,
    Sorted(Sort),
    /// Of a kind that fits this one.
    Of(Kind),
    /// A returned value is of the opcode's sort and fits the kind of the result.
    Returned(Sort, Kind),
}

/// Whether each value of a kind is of a sort.
pub(crate) fn is_of_sort(sort: Sort, kind: Kind) -> bool
    ensures { result ≡ sorted sort kind }
{
    match sort {
        Sort::Number => kind.is_int(),
        Sort::Reference => kind.is_reference(),
    }
}

/// Whether each value of a kind is as it must be.
fn passes(want: Want, kind: Kind) -> bool
    ensures { result ≡ passes_in want kind }
{
    match want {
        Want::Any => true,
        Want::Sorted(sort) => is_of_sort(sort, kind),
        Want::Of(wanted) => kind.fits(wanted),
        Want::Returned(sort, wanted) => is_of_sort(sort, kind) && kind.fits(wanted),
    }
}

/// The operands below those that are taken, the topmost by the last want. None comes exactly where
/// there are too few, or one isn't as it must be.
pub(crate) fn take(stacks: &Stacks, operands: u32, wants: &[Want]) -> Option<u32>
    requires { operands < length stacks.now }
    ensures there { IfSome result (λ b. b < length stacks.now) }
    ensures taken { IfSome result (λ b. IsTaken wants.now (stack_at stacks.now operands) (stack_at stacks.now b)) }
    ensures refused { IfNone result (CanTake wants.now (stack_at stacks.now operands) → ⊥) }
{
    let mut below = operands;
    let mut left = wants.len();
    'down: while left > 0 {
        left -= 1;
        let top = stacks.top(below)?;
        if !passes(wants[left], top.kind) {
            return None;
        }
        below = top.below;
    }
    Some(below)
}

/// The same where all are to fit kinds.
pub(crate) fn take_kinds(stacks: &Stacks, operands: u32, wants: &[Kind]) -> Option<u32>
    requires { operands < length stacks.now }
    ensures there { IfSome result (λ b. b < length stacks.now) }
    ensures taken { IfSome result (λ b. IsTaken (map wants_of.Of wants.now) (stack_at stacks.now operands) (stack_at stacks.now b)) }
    ensures refused { IfNone result (CanTake (map wants_of.Of wants.now) (stack_at stacks.now operands) → ⊥) }
{
    let mut below = operands;
    let mut left = wants.len();
    'down: while left > 0 {
        left -= 1;
        let top = stacks.top(below)?;
        if !top.kind.fits(wants[left]) {
            return None;
        }
        below = top.below;
    }
    Some(below)
}
