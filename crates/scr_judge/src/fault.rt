//! The first fault, by the numbers of the conditions.

ghost use Rattle.std.specs.Prelude.{IfOk};
ghost use Rattle.mg_read.specs.First.{FirstOf};
ghost use Rattle.scr_tree.specs.Faults.{IsFault, Of};
ghost use Rattle.scr_tree.specs.Written.{written_of};
ghost use Rattle.scr_judge.specs.Fault.{fault_of};
ghost use Rattle.scr_judge.specs.inner.View.{named_of};

use crate::clash::find_name_clash;
use crate::culprit::{Named, with_name};
use crate::cycles::find_unguarded_in_file;
use crate::declared::find_duplicate_in_file;
use crate::going::{find_duplicate_protocol, find_unknown_do};
use crate::last::find_not_last_in;
use crate::opening::find_starts_with_do;
use crate::own::find_own;
use crate::roles_told::find_roles_differ;
use crate::states::find_too_many_states;
use crate::typed::{find_payload_in_file, find_unknown_in_file};
use mg_text::{Memory, Place, Text};
use scr_tree::{Condition, Written};
use std::alloc::Global;

/// The condition that a file doesn't meet, with the place and the name of what is at fault. The
/// name is empty where nothing is named.
#[derive(Drop)]
pub struct Fault {
    pub condition: Condition,
    pub place: Place,
    pub name: Text,
}

/// The first fault of a file of this number: of the conditions that don't hold the one of the
/// lowest number, at its first place in the text. The only error is want of memory.
pub fn first_fault(alloc: Global, file: u32, written: &Written) -> Result<Option<Fault>, Memory>
    ensures { IfOk result (λ f. IsFault (written_of file written.now) (fault_of f)) }
{
    let conditions = [
        Condition::DuplicateName,
        Condition::UnknownRole,
        Condition::PeerIsSelf,
        Condition::UnknownType,
        Condition::PayloadCount,
        Condition::UnknownRec,
        Condition::DuplicateRec,
        Condition::Unguarded,
        Condition::Unreachable,
        Condition::BranchStart,
        Condition::MixedChoice,
        Condition::SameLabel,
        Condition::ReservedLabel,
        Condition::NameClash,
        Condition::TooManyStates,
        Condition::UnknownProtocol,
        Condition::DuplicateProtocol,
        Condition::RolesDiffer,
        Condition::NotLast,
        Condition::StartsWithDo,
    ];
    first_of(alloc, conditions.as_slice(), file, written)
}

// The first culprit of the first of some conditions that has one.
fn first_of(
    alloc: Global,
    conditions: &[Condition],
    file: u32,
    written: &Written,
) -> Result<Option<Fault>, Memory>
    ensures { IfOk result (λ f. FirstOf (Of (written_of file written.now)) conditions.now (fault_of f)) }
{
    for condition in conditions {
        if let Some(named) = judge(alloc, *condition, file, written)? {
            return Ok(Some(Fault {
                condition: *condition,
                place: named.place,
                name: named.name,
            }));
        }
    }
    Ok(None)
}

// The first culprit of one condition.
fn judge(
    alloc: Global,
    condition: Condition,
    file: u32,
    written: &Written,
) -> Result<Option<Named>, Memory>
    ensures { IfOk result (λ n. Of (written_of file written.now) condition (named_of n)) }
{
    match condition {
        Condition::DuplicateName => {
            let culprit = find_duplicate_in_file(alloc, written)?;
            with_name(alloc, culprit)
        }
        Condition::UnknownRole => find_own(alloc, Condition::UnknownRole, written),
        Condition::PeerIsSelf => find_own(alloc, Condition::PeerIsSelf, written),
        Condition::UnknownType => {
            let culprit = find_unknown_in_file(alloc, written)?;
            with_name(alloc, culprit)
        }
        Condition::PayloadCount => with_name(alloc, find_payload_in_file(written)),
        Condition::UnknownRec => find_own(alloc, Condition::UnknownRec, written),
        Condition::DuplicateRec => find_own(alloc, Condition::DuplicateRec, written),
        Condition::Unguarded => {
            let culprit = find_unguarded_in_file(alloc, written)?;
            with_name(alloc, culprit)
        }
        Condition::Unreachable => find_own(alloc, Condition::Unreachable, written),
        Condition::BranchStart => find_own(alloc, Condition::BranchStart, written),
        Condition::MixedChoice => find_own(alloc, Condition::MixedChoice, written),
        Condition::SameLabel => find_own(alloc, Condition::SameLabel, written),
        Condition::ReservedLabel => find_own(alloc, Condition::ReservedLabel, written),
        Condition::NameClash => find_name_clash(alloc, written),
        Condition::TooManyStates => with_name(alloc, find_too_many_states(file, written)),
        Condition::UnknownProtocol => {
            let culprit = find_unknown_do(alloc, written)?;
            with_name(alloc, culprit)
        }
        Condition::DuplicateProtocol => {
            let culprit = find_duplicate_protocol(alloc, written)?;
            with_name(alloc, culprit)
        }
        Condition::RolesDiffer => with_name(alloc, find_roles_differ(written)),
        Condition::NotLast => with_name(alloc, find_not_last_in(written)),
        Condition::StartsWithDo => with_name(alloc, find_starts_with_do(written)),
    }
}
