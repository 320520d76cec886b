//! The roles that are told in a file: at the head of each protocol, and at each `do`.

ghost use Rattle.std.specs.Prelude.{◌≡◌, map};
ghost use Rattle.std.specs.List.{flat_map};
ghost use Rattle.mg_read.specs.First.{Judged};
ghost use Rattle.scr_tree.specs.Going.{RolesDiffer, told_in};
ghost use Rattle.scr_tree.specs.Written.{parts_in, role_name, part_written, written_of};
ghost use Rattle.scr_judge.specs.inner.Gone.{same_names, arguments_differ, roles_differ};
ghost use Rattle.scr_judge.specs.inner.Listed.{first_among};
ghost use Rattle.scr_judge.specs.inner.View.{culprit_of};

use crate::culprit::{Culprit, culprit_unless};
use crate::truth::both;
use mg_text::Text;
use scr_tree::{Arguments, Role, Written, WrittenPart};

/// The first protocol whose roles or role differ from those of the first one, or `do` that isn't
/// given the roles in their order.
pub fn find_roles_differ(written: &Written) -> Option<Culprit<'_>>
    ensures { Judged (RolesDiffer (part_written written.now.first)) (flat_map told_in (parts_in (written_of 0 written.now)))
        (culprit_of result) }
{
    match find_told(&written.first, &written.first) {
        Some(culprit) => Some(culprit),
        None => find_told_in(&written.first, written.others.as_slice()),
    }
}

// The same of protocols behind the first.
#[tactic(auto, using(crate::proofs::Tables::steps))]
fn find_told_in<'a>(first: &WrittenPart, parts: &'a [WrittenPart]) -> Option<Culprit<'a>>
    ensures { culprit_of result ≡ first_among (roles_differ first.now) parts.now }
{
    for part in parts {
        if let Some(culprit) = find_told(first, part) {
            return Some(culprit);
        }
    }
    None
}

// The same of one protocol.
fn find_told<'a>(first: &WrittenPart, part: &'a WrittenPart) -> Option<Culprit<'a>>
    ensures { culprit_of result ≡ roles_differ first.now part.now }
{
    let listed = are_same_roles(part.roles.as_slice(), first.roles.as_slice());
    let same = both(listed, part.me.name == first.me.name);
    match culprit_unless(same, part.place, part.name.as_str()) {
        Some(culprit) => Some(culprit),
        None => find_given(first, part.arguments.as_slice()),
    }
}

// The first `do` that isn't given the roles of a protocol.
#[tactic(auto, using(crate::proofs::Tables::steps))]
fn find_given<'a>(first: &WrittenPart, given: &'a [Arguments]) -> Option<Culprit<'a>>
    ensures { culprit_of result ≡ first_among (arguments_differ first.now) given.now }
{
    for arguments in given {
        let same = are_roles(arguments.roles.as_slice(), first.roles.as_slice());
        if let Some(culprit) = culprit_unless(same, arguments.place, arguments.name.as_str()) {
            return Some(culprit);
        }
    }
    None
}

// Whether roles have the same names in the same order.
fn are_same_roles(roles: &[Role], others: &[Role]) -> bool
    ensures { result ≡ same_names (map role_name roles.now) (map role_name others.now) }
{
    let mut left = roles;
    let mut right = others;
    'roles: while let Some((role, more)) = left.split_first() {
        let Some((other, behind)) = right.split_first() else {
            return false;
        };
        if role.name != other.name {
            return false;
        }
        left = more;
        right = behind;
    }
    right.is_empty()
}

// Whether these are the names of the roles in their order.
fn are_roles(names: &[Text], roles: &[Role]) -> bool
    ensures { result ≡ same_names names.now (map role_name roles.now) }
{
    let mut left = names;
    let mut right = roles;
    'names: while let Some((name, more)) = left.split_first() {
        let Some((role, behind)) = right.split_first() else {
            return false;
        };
        if *name != role.name {
            return false;
        }
        left = more;
        right = behind;
    }
    right.is_empty()
}
