//! From what is written in a file to its protocol, or to the condition that it doesn't meet.

ghost use Rattle.std.specs.Prelude.{◌≡◌, Some, IfOk, map};
ghost use Rattle.scr_tree.specs.Local.{tree_of};
ghost use Rattle.scr_tree.specs.Valid.{IsValid};
ghost use Rattle.scr_tree.specs.View.{part_of};
ghost use Rattle.scr_tree.specs.Written.{written_of, part_written, part_meant, local_of, role_name};
ghost use Rattle.scr_read.specs.Outcome.{Refused, fault_answer};

use crate::fault::ScrFault;
use mg_text::{List, Memory, Text};
use scr_judge::Fault;
use scr_tree::{Local, Part, Role, Written, WrittenPart};
use std::alloc::Global;

// The fault of a file that doesn't meet a condition.
pub(crate) fn refusal(fault: Fault) -> ScrFault
    ensures { fault_answer result ≡ Some (Refused fault.condition fault.place fault.name) }
{
    let Fault {
        condition,
        place,
        name,
    } = fault;
    ScrFault::Unmet {
        condition,
        place,
        name,
    }
}

// The names of roles.
fn names_of(alloc: Global, roles: List<Role>) -> Result<List<Text>, Memory>
    ensures { IfOk result (λ l. l.items ≡ map role_name roles.items) }
{
    let mut names = List::new(alloc);
    for role in roles.into_vec() {
        let Role { place: _, name } = role;
        names.push(name)?;
    }
    Ok(names)
}

// The protocols behind the first.
fn parts_of(alloc: Global, written: List<WrittenPart>) -> Result<List<Part>, Memory>
    ensures { IfOk result (λ l. map part_of l.items ≡ map part_meant (map part_written written.items)) }
{
    let mut parts = List::new(alloc);
    for part in written.into_vec() {
        let WrittenPart {
            place,
            name,
            me: _,
            roles: _,
            carries: _,
            arguments: _,
            body,
        } = part;
        parts.push(Part { place, name, body })?;
    }
    Ok(parts)
}

// The protocol that is meant.
pub(crate) fn protocol_of(alloc: Global, file: u32, written: Written) -> Result<Local, Memory>
    requires { ∥ IsValid (local_of (written_of file written)) ∥₁ }
    ensures { IfOk result (λ l. tree_of l ≡ local_of (written_of file written)) }
{
    let Written {
        types: _,
        first,
        others,
    } = written;
    let others = parts_of(alloc, others)?;
    let WrittenPart {
        place: _,
        name,
        me,
        roles,
        carries: _,
        arguments: _,
        body,
    } = first;
    let roles = names_of(alloc, roles)?;
    Ok(Local::new(file, name, me.name, roles, body, others))
}
