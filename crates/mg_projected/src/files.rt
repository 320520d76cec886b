//! From the bytes of a file to the texts of its roles' local protocols.

ghost use Rattle.std.specs.Prelude.{◌≡◌, Some, None, Err, IfOk, map};
ghost use Rattle.scr_tree.specs.Local.{tree_of as local_of};
ghost use Rattle.mg_projected.specs.Projected.{file_of, Answer, Outcome, answer_of, IsAnswered};
ghost use Rattle.mg_projected.specs.inner.Stages.{Stage, role_file};
ghost use Rattle.mg_projected.specs.declared.fault.ProjectedFault.TheVariants as faults;

use crate::fault::ProjectedFault;
use crate::locals::found_in;
use mg_text::{List, Memory, Text};
use scr_read::print_local;
use scr_tree::Local;
use std::alloc::Global;

/// The file of a role: its name, and its text.
#[derive(Drop)]
pub struct RoleFile {
    pub name: Text,
    pub text: Text,
}

// The file of a role that does this.
fn file_with(alloc: Global, role: &Text, local: &Local) -> Result<RoleFile, Memory>
    ensures { IfOk result (λ f. f ≡ file_of role.now (local_of local.now)) }
{
    let mut name = String::from_str(alloc, role.as_str())?;
    name.push_str(".scr")?;
    let text = print_local(alloc, local)?;
    Ok(RoleFile {
        name: Text::from_string(name),
        text,
    })
}

// The files of the roles of these local protocols, in their order.
fn files_of(alloc: Global, locals: &[Local]) -> Result<List<RoleFile>, Memory>
    ensures { IfOk result (λ fs. fs.items ≡ map (λ l. role_file (local_of l)) locals.now) }
{
    let mut files = List::new(alloc);
    for local in locals {
        files.push(file_with(alloc, local.me(), local)?)?;
    }
    Ok(files)
}

// The files of a file's global protocol.
#[tactic(auto, using(crate::proofs::Staged::stage_memory))]
fn projected_of(alloc: Global, file: u32, bytes: &[u8]) -> Result<List<RoleFile>, ProjectedFault>
    ensures { Stage file bytes.now result }
{
    match found_in(alloc, file, bytes) {
        Ok(found) => match files_of(alloc, found.locals.as_slice()) {
            Ok(files) => Ok(files),
            Err(Memory) => Err(ProjectedFault::Memory),
        },
        Err(fault) => Err(fault),
    }
}

/// The files of the roles of the global protocol that the bytes of a file spell, in the order of
/// the header: `<R>.scr` with the text of what the role R does.
///
/// # Errors
/// `Unread` with the fault of the bytes; `Unprojected` with the fault of the first role that has no
/// local protocol; `Memory`.
pub fn projected(alloc: Global, file: u32, bytes: &[u8]) -> Result<List<RoleFile>, ProjectedFault>
    // What is answered is what projecting the file gives.
    ensures answered { (a : Answer) → answer_of result ≡ Some a → Outcome file bytes.now a }
    // What projecting the file gives is answered, unless memory runs out.
    ensures only { (a : Answer) → Outcome file bytes.now a → IsAnswered a result }
    // Nothing is answered only where memory ran out.
    ensures nothing { answer_of result ≡ None → result ≡ Err faults.Memory }
{
    projected_of(alloc, file, bytes)
}
