//! The command `project`: the files of a global protocol's roles, or its first refusal.

ghost use Rattle.std.specs.Prelude.{◌≡◌, ◌++◌, List as Seq, length, IfOk, OnOk, option_map};
ghost use Rattle.mg_words.specs.Words.{Word, Project};
ghost use Rattle.mg_top.specs.Writing.{roles_written};
ghost use Rattle.mg_top.specs.inner.Preparing.{IsCarried};

use crate::translate::file_in;
use mg_delivery::{Action, Delivery, Status};
use mg_projected::RoleFile;
use mg_refusal::Stop;
use mg_text::{Bytes, List, Memory, Text};
use std::alloc::Global;

/// The files of the roles of the file's global protocol, or the first refusal.
pub fn project(alloc: Global, folder: Option<&Text>, contents: &[Bytes]) -> Result<Delivery, Stop>
    requires { length contents.now ≡ 1 }
    ensures { (names : Seq Word) → length names ≡ 1
        → IsCarried (Project (option_map (λ f. f.now) folder.entry) names) contents.now result }
{
    let files = mg_projected::project(alloc, contents)?;
    Ok(write_roles(alloc, folder, files.as_slice())?)
}

// The writes of these files of roles.
fn write_roles(alloc: Global, folder: Option<&Text>, files: &[RoleFile]) -> Result<Delivery, Memory>
    ensures actions { IfOk result (λ d. d.actions.items ≡ roles_written (option_map (λ f. f.now) folder.entry) files.now) }
    ensures status { IfOk result (λ d. d.status ≡ Status.Done) }
{
    let mut actions = List::new(alloc);
    add_roles(alloc, folder, files, &mut actions)?;
    Ok(Delivery {
        actions,
        status: Status::Done,
    })
}

// Appends the writes of these files of roles.
fn add_roles(
    alloc: Global,
    folder: Option<&Text>,
    files: &[RoleFile],
    actions: &mut List<Action>,
) -> Result<(), Memory>
    ensures { OnOk result (actions.new.items ≡ actions.old.items ++ roles_written (option_map (λ f. f.now) folder.entry) files.now) }
{
    for file in files {
        let output = file_in(
            alloc,
            folder,
            file.name.as_str(),
            file.text.as_str().as_bytes(),
        )?;
        actions.push(Action::Write(output))?;
    }
    Ok(())
}
