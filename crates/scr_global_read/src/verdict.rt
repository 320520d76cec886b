//! From what is written in a file to its protocol, or to the condition that it doesn't meet.

ghost use Rattle.std.specs.Prelude.{◌≡◌, Some, IfOk, map};
ghost use Rattle.scr_global_tree.specs.Global.{tree_of};
ghost use Rattle.scr_global_tree.specs.Valid.{IsValid};
ghost use Rattle.scr_tree.specs.Written.{role_name};
ghost use Rattle.scr_global_tree.specs.Written.{written_of, global_of, role_place};
ghost use Rattle.scr_global_read.specs.Outcome.{Refused, fault_answer};

use crate::fault::GlobalFault;
use mg_text::{List, Memory, Place, Text};
use scr_global_tree::{Global, WrittenGlobal};
use scr_judge::Fault;
use scr_tree::Role;
use std::alloc::Global as Allocator;

// The fault of a file that doesn't meet a condition.
pub(crate) fn refusal(fault: Fault) -> GlobalFault
    ensures { fault_answer result ≡ Some (Refused fault.condition fault.place fault.name) }
{
    let Fault {
        condition,
        place,
        name,
    } = fault;
    GlobalFault::Unmet {
        condition,
        place,
        name,
    }
}

// The names of roles.
fn names_of(alloc: Allocator, roles: &[Role]) -> Result<List<Text>, Memory>
    ensures { IfOk result (λ l. l.items ≡ map role_name roles.now) }
{
    let mut names = List::new(alloc);
    for role in roles {
        names.push(role.name.copy()?)?;
    }
    Ok(names)
}

// Where roles are named.
fn places_of(alloc: Allocator, roles: &[Role]) -> Result<List<Place>, Memory>
    ensures { IfOk result (λ l. l.items ≡ map role_place roles.now) }
{
    let mut places = List::new(alloc);
    for role in roles {
        places.push(role.place)?;
    }
    Ok(places)
}

// The protocol that is meant.
pub(crate) fn protocol_of(
    alloc: Allocator,
    file: u32,
    written: WrittenGlobal,
) -> Result<Global, Memory>
    requires { ∥ IsValid (global_of (written_of file written)) ∥₁ }
    ensures { IfOk result (λ g. tree_of g ≡ global_of (written_of file written)) }
{
    let WrittenGlobal {
        types: _,
        name,
        roles,
        carries: _,
        body,
    } = written;
    let places = places_of(alloc, roles.as_slice())?;
    let roles = names_of(alloc, roles.as_slice())?;
    Ok(Global::new(file, name, roles, places, body))
}
