//! Roles that are listed.

ghost use Rattle.std.specs.Prelude.{◌≡◌, ◌↔◌, ◌∷◌, [], ℕ, List, IfOk, IfNone, IsTrue, Contains, map};
ghost use Rattle.std.specs.HashSet.{contains_text};
ghost use Rattle.mg_read.specs.First.{Judged, with_earlier};
ghost use Rattle.scr_tree.specs.Written.{role_name};
ghost use Rattle.scr_tree.specs.Listing.{UnknownRole, itself, within};
ghost use Rattle.scr_tree.specs.Spots.{spots};
ghost use Rattle.scr_tree.specs.View.{statements};
ghost use Rattle.scr_judge.specs.inner.Listed.{ListedTwice};
ghost use Rattle.scr_judge.specs.inner.Seen.{noted_in};
ghost use Rattle.scr_judge.specs.inner.View.{culprit_of};

use crate::culprit::Culprit;
use crate::on_spot::find_unknown_peer;
use crate::seen::{add_name, no_names, note_name, room_for};
use mg_text::Memory;
use scr_tree::{Role, WrittenPart};
use std::alloc::Global;
use std::collections::HashSet;

/// The first role that is listed twice.
pub fn find_listed_twice(alloc: Global, roles: &[Role]) -> Result<Option<Culprit<'_>>, Memory>
    ensures { IfOk result (λ r. Judged ListedTwice (with_earlier roles.now) (culprit_of r)) }
{
    let mut names = room_for(alloc, roles.len())?;
    for role in roles {
        if !note_name(&mut names, role.name.as_str())? {
            return Ok(Some(Culprit {
                place: role.place,
                name: role.name.as_str(),
            }));
        }
    }
    Ok(None)
}

/// The first place where a role is named that is not listed: the role itself, a peer, or that of a
/// choice.
pub fn find_unknown_role(alloc: Global, part: &WrittenPart) -> Result<Option<Culprit<'_>>, Memory>
    ensures { IfOk result (λ r. Judged (UnknownRole (map role_name part.now.roles.items))
        (itself part.now.me ∷ map within (spots [] (statements part.now.body.items))) (culprit_of r)) }
{
    let listed = noted_roles(alloc, part.roles.as_slice())?;
    let me = &part.me;
    if !listed.contains(me.name.as_str()) {
        return Ok(Some(Culprit {
            place: me.place,
            name: me.name.as_str(),
        }));
    }
    Ok(find_unknown_peer(&listed, part.body.as_slice()))
}

// The names of the roles, where they stand.
fn noted_roles(alloc: Global, roles: &[Role]) -> Result<HashSet<&str>, Memory>
    ensures { IfOk result (λ s. (q : List ℕ) → IsTrue (noted_in s q) ↔ Contains (map role_name roles.now) q) }
{
    let mut names = room_for(alloc, roles.len())?;
    for role in roles {
        note_name(&mut names, role.name.as_str())?;
    }
    Ok(names)
}

/// The names of the roles.
pub fn listed_roles(alloc: Global, roles: &[Role]) -> Result<HashSet<String>, Memory>
    ensures { IfOk result (λ s. (q : List ℕ) → IsTrue (contains_text s q) ↔ Contains (map role_name roles.now) q) }
{
    let mut names = no_names(alloc);
    for role in roles {
        let name = String::from_str(alloc, role.name.as_str())?;
        add_name(&mut names, name)?;
    }
    Ok(names)
}
