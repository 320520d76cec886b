//! From the bytes of a file to the local protocols of its global protocol's roles.

ghost use Rattle.scr_global_tree.specs.Global.{tree_of};
ghost use Rattle.mg_projected.specs.inner.Stages.{FoundStage, LocalsStage, IsTold};
ghost use Rattle.mg_projected.specs.declared.fault.ProjectedFault.TheVariants as faults;
ghost use Rattle.scr_project.specs.declared.fault.ProjectFault.TheVariants as project_faults;
ghost use Rattle.scr_global_read.specs.declared.fault.GlobalFault.TheVariants as global_faults;

use crate::fault::ProjectedFault;
use mg_text::List;
use scr_global_read::{GlobalFault, read_global};
use scr_global_tree::Global as GlobalProtocol;
use scr_project::{ProjectFault, project};
use scr_tree::Local;
use std::alloc::Global;

/// A global protocol, and the local protocols of its roles in the order of its header.
#[derive(Drop)]
pub struct Locals {
    pub global: GlobalProtocol,
    pub locals: List<Local>,
}

// The local protocols of all roles, in their order, or why the first that has none has none.
fn locals_of(alloc: Global, global: &GlobalProtocol) -> Result<List<Local>, ProjectFault>
    ensures { LocalsStage (tree_of global.now) (tree_of global.now).roles result }
{
    let mut locals = List::new(alloc);
    for role in global.roles().as_slice() {
        match project(alloc, global, role.as_str()) {
            Ok(local) => locals.push(local)?,
            Err(fault) => return Err(fault),
        }
    }
    Ok(locals)
}

// The fault of roles that have no local protocols.
fn unprojected(fault: ProjectFault) -> ProjectedFault
    ensures { IsTold fault project_faults.Memory (faults.Unprojected fault) result }
{
    match fault {
        ProjectFault::Memory => ProjectedFault::Memory,
        _ => ProjectedFault::Unprojected(fault),
    }
}

// The fault of a file that holds no global protocol.
fn unread(fault: GlobalFault) -> ProjectedFault
    ensures { IsTold fault global_faults.Memory (faults.Unread fault) result }
{
    match fault {
        GlobalFault::Memory => ProjectedFault::Memory,
        _ => ProjectedFault::Unread(fault),
    }
}

/// The global protocol that the bytes of a file spell, with the local protocols of its roles.
pub(crate) fn found_in(alloc: Global, file: u32, bytes: &[u8]) -> Result<Locals, ProjectedFault>
    ensures { FoundStage file bytes.now result }
{
    match read_global(alloc, file, bytes) {
        Ok(global) => match locals_of(alloc, &global) {
            Ok(locals) => Ok(Locals { global, locals }),
            Err(fault) => Err(unprojected(fault)),
        },
        Err(fault) => Err(unread(fault)),
    }
}
