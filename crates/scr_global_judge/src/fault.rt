//! The first fault, by the numbers of the conditions.

ghost use Rattle.std.specs.Prelude.{◌≡◌, None, IfOk, codes};
ghost use Rattle.mg_read.specs.First.{FirstOf};
ghost use Rattle.scr_tree.specs.View.{statements as local_statements};
ghost use Rattle.scr_judge.specs.Fault.{fault_of};
ghost use Rattle.scr_judge.specs.inner.View.{named_of};
ghost use Rattle.scr_global_tree.specs.Faults.{IsFault, Of};
ghost use Rattle.scr_global_tree.specs.View.{statements};
ghost use Rattle.scr_global_tree.specs.Written.{written_of};
ghost use Rattle.scr_global_judge.specs.inner.Outline.{outlined};

use crate::outline::outline_all;
use crate::roles::{find_peer_is_self, find_unknown_role};
use mg_text::{Memory, Text};
use scr_global_tree::WrittenGlobal;
use scr_judge::{
    Fault, Named, find_branch_start, find_duplicate_name, find_duplicate_rec, find_mixed_choice,
    find_payload_count, find_same_label, find_unguarded, find_unknown_rec, find_unknown_type,
    find_unreachable, listed_roles, with_name,
};
use scr_tree::{Condition, Statement};
use std::alloc::Global;

/// The first fault of a file of this number: of the conditions that don't hold the one of the
/// lowest number, at its first place in the text. The only error is want of memory.
pub fn first_fault(
    alloc: Global,
    file: u32,
    written: &WrittenGlobal,
) -> Result<Option<Fault>, Memory>
    ensures { IfOk result (λ f. IsFault (written_of file written.now) (fault_of f)) }
{
    let outline = outline_all(alloc, None, written.body.as_slice())?;
    let me = Text::of(alloc, "_")?;
    let conditions = [
        Condition::DuplicateName,
        Condition::UnknownRole,
        Condition::PeerIsSelf,
        Condition::UnknownType,
        Condition::PayloadCount,
        Condition::UnknownRec,
        Condition::DuplicateRec,
        Condition::Unguarded,
        Condition::Unreachable,
        Condition::BranchStart,
        Condition::MixedChoice,
        Condition::SameLabel,
    ];
    let order = conditions.as_slice();
    first_of(alloc, order, file, written, &me, outline.as_slice())
}

// The first culprit of the first of some conditions that has one.
fn first_of(
    alloc: Global,
    conditions: &[Condition],
    file: u32,
    written: &WrittenGlobal,
    me: &Text,
    outline: &[Statement],
) -> Result<Option<Fault>, Memory>
    requires role { me.now ≡ codes "_" }
    requires outline { local_statements outline.now ≡ outlined None (statements written.now.body.items) }
    ensures { IfOk result (λ f. FirstOf (Of (written_of file written.now)) conditions.now (fault_of f)) }
{
    for condition in conditions {
        if let Some(named) = judge(alloc, *condition, file, written, me, outline)? {
            return Ok(Some(Fault {
                condition: *condition,
                place: named.place,
                name: named.name,
            }));
        }
    }
    Ok(None)
}

// The first culprit of one condition.
fn judge(
    alloc: Global,
    condition: Condition,
    file: u32,
    written: &WrittenGlobal,
    me: &Text,
    outline: &[Statement],
) -> Result<Option<Named>, Memory>
    requires role { me.now ≡ codes "_" }
    requires outline { local_statements outline.now ≡ outlined None (statements written.now.body.items) }
    ensures { IfOk result (λ n. Of (written_of file written.now) condition (named_of n)) }
{
    let types = written.types.as_slice();
    let roles = written.roles.as_slice();
    let carries = written.carries.as_slice();
    let body = written.body.as_slice();
    match condition {
        Condition::DuplicateName => {
            let culprit = find_duplicate_name(alloc, types, roles)?;
            with_name(alloc, culprit)
        }
        Condition::UnknownRole => {
            let listed = listed_roles(alloc, roles)?;
            with_name(alloc, find_unknown_role(&listed, body))
        }
        Condition::PeerIsSelf => with_name(alloc, find_peer_is_self(body)),
        Condition::UnknownType => {
            let culprit = find_unknown_type(alloc, types, carries)?;
            with_name(alloc, culprit)
        }
        Condition::PayloadCount => with_name(alloc, find_payload_count(carries)),
        Condition::UnknownRec => with_name(alloc, find_unknown_rec(outline)),
        Condition::DuplicateRec => with_name(alloc, find_duplicate_rec(outline)),
        Condition::Unguarded => with_name(alloc, find_unguarded(outline)),
        Condition::Unreachable => with_name(alloc, find_unreachable(outline)),
        Condition::BranchStart => with_name(alloc, find_branch_start(outline)),
        Condition::MixedChoice => with_name(alloc, find_mixed_choice(me, outline)),
        Condition::SameLabel => {
            let culprit = find_same_label(alloc, me, outline)?;
            with_name(alloc, culprit)
        }
        // The others are none of a global protocol's.
        _ => Ok(None),
    }
}
