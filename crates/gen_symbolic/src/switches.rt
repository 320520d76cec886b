//! Where the table of a `switch` leads.

ghost use Rattle.std.specs.Prelude.{◌≡◌, ◌+◌, IfOk, OnOk, length, map, unwrap_or};
ghost use Rattle.jv_values.specs.Statements.{any_label};
ghost use Rattle.jv_core.specs.View.{group_of, groups_of};
ghost use Rattle.jv_core.specs.Numbering.{numbers_from};
ghost use Rattle.gen_rules.specs.Cases.{group_at};
ghost use Rattle.gen_expressions.specs.Held.{draft_in, method_in};
ghost use Rattle.gen_symbolic.specs.inner.Drafting.{groups, table, wanted, target_by};

use cls_tree::opcodes::TABLESWITCH;
use gen_expressions::{Coder, Draft, Operand};
use jv_core::CoreGroup;
use mg_text::{List, Memory};

/// The label behind a label.
pub(crate) fn next_label(label: u32) -> Result<u32, Memory>
    ensures { IfOk result (λ n. n ≡ label + 1) }
{
    let Some(next) = label.checked_add(1) else {
        return Err(Memory);
    };
    Ok(next)
}

// Whether a label is the constant of this position, or `default` where there is none.
fn is_label(label: Option<u32>, position: Option<u32>) -> bool
    ensures { result ≡ wanted position label }
{
    match position {
        None => label.is_none(),
        Some(position) => match label {
            None => false,
            Some(label) => label == position,
        },
    }
}

// Whether a group has a label for this position.
#[tactic(auto, using(crate::proofs::Loops::labels))]
fn has_label(labels: &[Option<u32>], position: Option<u32>) -> bool
    ensures { result ≡ any_label (wanted position) labels.now }
{
    for label in labels {
        if is_label(*label, position) {
            return true;
        }
    }
    false
}

// The label at which the first group with this position begins.
#[tactic(auto, using(crate::proofs::Loops::starts))]
fn group_at(groups: &[CoreGroup], first: u32, position: Option<u32>) -> Result<Option<u32>, Memory>
    ensures { IfOk result (λ o. o ≡ group_at (wanted position) (groups_of (map group_of groups.now))
        (numbers_from first (length groups.now))) }
{
    let mut label = first;
    for group in groups {
        if has_label(group.labels.as_slice(), position) {
            return Ok(Some(label));
        }
        label = next_label(label)?;
    }
    Ok(None)
}

// The label at which a group begins, or another one where there is no such group.
fn label_at(
    groups: &[CoreGroup],
    first: u32,
    position: Option<u32>,
    otherwise: u32,
) -> Result<u32, Memory>
    ensures { IfOk result (λ n. n ≡ unwrap_or
        (group_at (wanted position) (groups_of (map group_of groups.now)) (numbers_from first (length groups.now))) otherwise) }
{
    let Some(label) = group_at(groups, first, position)? else {
        return Ok(otherwise);
    };
    Ok(label)
}

/// The table of a `switch` over so many constants, whose groups begin at labels from the first on.
pub(crate) fn put_table<'a>(
    coder: &Coder<'a>,
    draft: &mut Draft<'a>,
    groups: &[CoreGroup],
    first: u32,
    end: u32,
    constants: usize,
) -> Result<(), Memory>
    ensures { OnOk result (draft_in coder.now draft.new ≡ table coder.now.core.now (method_in coder.now)
        (groups_of (map group_of groups.now)) first (length groups.now) end (numbers_from 0 constants) (draft_in coder.now draft.old)) }
{
    let default = label_at(groups, first, None, end)?;
    let targets = targets(coder, groups, first, default, constants)?;
    coder.put(draft, TABLESWITCH, Operand::Table { default, targets })
}

// Where each constant leads.
fn targets(
    coder: &Coder<'_>,
    groups: &[CoreGroup],
    first: u32,
    default: u32,
    constants: usize,
) -> Result<List<u32>, Memory>
    ensures { IfOk result (λ l. l.items
        ≡ map (target_by (groups_of (map group_of groups.now)) (numbers_from first (length groups.now)) default)
        (numbers_from 0 constants)) }
{
    let Ok(count) = u32::try_from(constants) else {
        return Err(Memory);
    };
    let mut targets = List::new(coder.alloc);
    for position in 0..count {
        let label = label_at(groups, first, Some(position), default)?;
        targets.push(label)?;
    }
    Ok(targets)
}
