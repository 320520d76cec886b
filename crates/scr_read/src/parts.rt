//! A local protocol of its parts, where no text is read.

ghost use Rattle.std.specs.Prelude.{◌≡◌, [], IfOk, map};
ghost use Rattle.scr_tree.specs.Valid.{IsWritten};
ghost use Rattle.scr_tree.specs.View.{written};
ghost use Rattle.scr_tree.specs.Written.{written_of};
ghost use Rattle.scr_read.specs.Parts.{listed, parts, Makes};

use crate::fault::ScrFault;
use crate::verdict::{protocol_of, refusal};
use mg_text::{List, Memory, Place, Text};
use scr_judge::first_fault;
use scr_tree::{Local, Role, Statement, Written, WrittenPart};
use std::alloc::Global;

// Roles of these names, listed where the file begins.
fn roles_of(alloc: Global, file: u32, names: List<Text>) -> Result<List<Role>, Memory>
    ensures { IfOk result (λ l. l.items ≡ map (listed file) names.items) }
{
    let place = Place::start(file);
    let mut roles = List::new(alloc);
    for name in names.into_vec() {
        roles.push(Role { place, name })?;
    }
    Ok(roles)
}

// The parts as a file would have them.
fn written_of(
    alloc: Global,
    file: u32,
    name: Text,
    me: Text,
    roles: List<Text>,
    body: List<Statement>,
) -> Result<Written, Memory>
    ensures { IfOk result (λ w. written_of file w ≡ parts (written file name me roles.items body.items [])) }
{
    let roles = roles_of(alloc, file, roles)?;
    let me = Role {
        place: Place::start(file),
        name: me,
    };
    let first = WrittenPart {
        place: Place::start(file),
        name,
        me,
        roles,
        carries: List::new(alloc),
        arguments: List::new(alloc),
        body,
    };
    Ok(Written {
        types: List::new(alloc),
        first,
        others: List::new(alloc),
    })
}

/// The local protocol of these parts, with no others behind it: the number of its file, its name, the
/// role that it is of, all its roles, and what the role does. Its names are names of Scribble, each
/// choice has a branch, and statements stand at most 200 deep one inside another.
///
/// # Errors
/// The fault of the lowest number that the parts have, at its first place: a role is listed twice,
/// one that is named isn't listed, or the body doesn't meet a condition. What has no place in the
/// body stands where the file begins. Or `Memory`. On an error the parts are dropped.
pub fn local_of(
    alloc: Global,
    file: u32,
    name: Text,
    me: Text,
    roles: List<Text>,
    body: List<Statement>,
) -> Result<Local, ScrFault>
    requires { ∥ IsWritten (written file name me roles.items body.items []) ∥₁ }
    // The protocol, where the parts meet all conditions, or the fault that they have.
    ensures { Makes (written file name me roles.items body.items []) result }
{
    let written = written_of(alloc, file, name, me, roles, body)?;
    match first_fault(alloc, file, &written)? {
        Some(fault) => Err(refusal(fault)),
        None => Ok(protocol_of(alloc, file, written)?),
    }
}
