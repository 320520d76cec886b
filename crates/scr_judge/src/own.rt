//! Conditions that each protocol of a file is judged by alone, with the role that it is of and its
//! roles. Any other finds nothing here.

ghost use Rattle.std.specs.Prelude.{IfOk};
ghost use Rattle.scr_tree.specs.Written.{part_written};
ghost use Rattle.scr_judge.specs.inner.Own.{OfOwn, FirstIn, all_parts};
ghost use Rattle.scr_judge.specs.inner.View.{named_of};

use crate::culprit::{Named, with_name};
use crate::labels::find_same_label;
use crate::on_spot::{
    find_branch_start, find_duplicate_rec, find_mixed_choice, find_peer_is_self,
    find_reserved_label, find_unknown_rec,
};
use crate::reached::find_unreachable;
use crate::roles::find_unknown_role;
use mg_text::Memory;
use scr_tree::{Condition, Written, WrittenPart};
use std::alloc::Global;

/// The first culprit of the protocols of a file, in the order of the text.
pub fn find_own(
    alloc: Global,
    condition: Condition,
    written: &Written,
) -> Result<Option<Named>, Memory>
    ensures { IfOk result (λ n. FirstIn (λ p. OfOwn condition (part_written p)) (all_parts written.now) (named_of n)) }
{
    match judge_own(alloc, condition, &written.first)? {
        Some(found) => Ok(Some(found)),
        None => find_own_in(alloc, condition, written.others.as_slice()),
    }
}

// The same of protocols behind the first.
fn find_own_in(
    alloc: Global,
    condition: Condition,
    parts: &[WrittenPart],
) -> Result<Option<Named>, Memory>
    ensures { IfOk result (λ n. FirstIn (λ p. OfOwn condition (part_written p)) parts.now (named_of n)) }
{
    for part in parts {
        if let Some(found) = judge_own(alloc, condition, part)? {
            return Ok(Some(found));
        }
    }
    Ok(None)
}

// The first culprit of one protocol.
fn judge_own(
    alloc: Global,
    condition: Condition,
    part: &WrittenPart,
) -> Result<Option<Named>, Memory>
    ensures { IfOk result (λ n. OfOwn condition (part_written part.now) (named_of n)) }
{
    let me = &part.me.name;
    let body = part.body.as_slice();
    match condition {
        Condition::UnknownRole => {
            let culprit = find_unknown_role(alloc, part)?;
            with_name(alloc, culprit)
        }
        Condition::PeerIsSelf => with_name(alloc, find_peer_is_self(me, body)),
        Condition::UnknownRec => with_name(alloc, find_unknown_rec(body)),
        Condition::DuplicateRec => with_name(alloc, find_duplicate_rec(body)),
        Condition::Unreachable => with_name(alloc, find_unreachable(body)),
        Condition::BranchStart => with_name(alloc, find_branch_start(body)),
        Condition::MixedChoice => with_name(alloc, find_mixed_choice(me, body)),
        Condition::SameLabel => {
            let culprit = find_same_label(alloc, me, body)?;
            with_name(alloc, culprit)
        }
        Condition::ReservedLabel => with_name(alloc, find_reserved_label(me, body)),
        // The others are judged over the whole file.
        _ => Ok(None),
    }
}
