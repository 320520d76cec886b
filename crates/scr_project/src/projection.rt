//! The local protocol of one role of a global protocol.

ghost use Rattle.std.specs.Prelude.{◌≡◌, ◌≢◌, Some, None, Err, IfOk, IfSome, Contains};
ghost use Rattle.std.specs.Option.{is_none};
ghost use Rattle.scr_tree.specs.View.{statements};
ghost use Rattle.scr_global.specs.Texts.{projected};
ghost use Rattle.scr_global_tree.specs.Global.{tree_of};
ghost use Rattle.scr_read.specs.Outcome.{fault_answer};
ghost use Rattle.scr_project.specs.declared.fault.ProjectFault.TheVariants as faults;
ghost use Rattle.scr_project.specs.Outcome.{Answer, Outcome, answer_of, IsAnswered};
ghost use Rattle.scr_project.specs.inner.Stages.{Stage, IsUnprojected};

use crate::fault::ProjectFault;
use crate::names::Names;
use crate::part::Part;
use crate::walk::found_all;
use mg_text::{List, Memory, Place, Text};
use scr_global_tree::Global as GlobalProtocol;
use scr_read::{ScrFault, local_of};
use scr_tree::{Local, Statement};
use std::alloc::Global;

// Copies of texts.
fn copies(alloc: Global, texts: &[Text]) -> Result<List<Text>, Memory>
    ensures { IfOk result (λ l. l.items ≡ texts.now) }
{
    let mut copies = List::new(alloc);
    for text in texts {
        copies.push(text.copy()?)?;
    }
    Ok(copies)
}

// Whether a fault is want of memory.
fn is_memory(fault: &ScrFault) -> bool
    ensures { result ≡ is_none (fault_answer fault.now) }
{
    match fault {
        ScrFault::Memory => true,
        _ => false,
    }
}

// The name of a role, to be told with a fault; none where memory is wanted.
fn told_name(alloc: Global, role: &str, fault: &ScrFault) -> Option<Text>
    ensures { IfSome result (λ name. (name ≡ role.now) × (fault_answer fault.now ≢ None)) }
{
    if is_memory(fault) {
        return None;
    }
    match Text::of(alloc, role) {
        Ok(name) => Some(name),
        Err(Memory) => None,
    }
}

// The fault of a role that does what is no local protocol.
fn unprojected(alloc: Global, file: u32, role: &str, fault: ScrFault) -> Result<Local, ProjectFault>
    ensures { IsUnprojected file role.now fault result }
{
    match told_name(alloc, role, &fault) {
        Some(name) => Err(ProjectFault::Unprojected {
            place: Place::start(file),
            name,
            fault,
        }),
        None => {
            drop(fault);
            Err(ProjectFault::Memory)
        }
    }
}

// The local protocol of a role that does this.
fn made(
    alloc: Global,
    global: &GlobalProtocol,
    role: &str,
    body: List<Statement>,
) -> Result<Local, ProjectFault>
    requires listed { Contains (tree_of global.now).roles role.now }
    requires body { projected role.now (tree_of global.now).body ≡ Some (statements body.items) }
    ensures { Stage (tree_of global.now) role.now result }
{
    let file = global.file();
    let name = global.name().copy()?;
    let roles = copies(alloc, global.roles().as_slice())?;
    let me = Text::of(alloc, role)?;
    match local_of(alloc, file, name, me, roles, body) {
        Ok(local) => Ok(local),
        Err(fault) => unprojected(alloc, file, role, fault),
    }
}

// The same, of a role for which the text was walked.
fn project_of(alloc: Global, global: &GlobalProtocol, role: &str) -> Result<Local, ProjectFault>
    requires { Contains (tree_of global.now).roles role.now }
    ensures { Stage (tree_of global.now) role.now result }
{
    let me = Text::of(alloc, role)?;
    let body = global.body().as_slice();
    let Part {
        named: _,
        reach: _,
        first,
        says,
    } = found_all(alloc, &me, &Names::Outside, body)?;
    match says {
        Some(body) => made(alloc, global, role, body),
        None => {
            let place = first.unwrap();
            Err(ProjectFault::NotMergeable { place, name: me })
        }
    }
}

/// The local protocol of one of the roles of a global protocol: what is left of the text for the
/// role, with its places. The number of its file is that of the global one.
///
/// # Errors
/// `NotMergeable` where the role has no projection, at the first choice of another role that has
/// none though each of its branches has one: the branches aren't all the same to the role, nor does
/// each begin with a message to it from one peer, with a label of its own. `Unprojected` where the
/// projection doesn't meet a condition of local protocols, with the lowest fault that it has.
/// `Memory`.
pub fn project(alloc: Global, global: &GlobalProtocol, role: &str) -> Result<Local, ProjectFault>
    requires { Contains (tree_of global.now).roles role.now }
    // What is answered is what projecting gives.
    ensures answered { (a : Answer) → answer_of result ≡ Some a → Outcome (tree_of global.now) role.now a }
    // What projecting gives is answered, unless memory runs out.
    ensures only { (a : Answer) → Outcome (tree_of global.now) role.now a → IsAnswered a result }
    // Nothing is answered only where memory ran out.
    ensures nothing { answer_of result ≡ None → result ≡ Err faults.Memory }
{
    project_of(alloc, global, role)
}
