//! The command `client`: Scribble files become clients of their protocols, each of them accepted.

ghost use Rattle.std.specs.Prelude.{◌≡◌, ◌<◌, ◌^◌, ◌++◌, All, codes, length, IfOk, OnOk, option_map};
ghost use Rattle.mg_sources.specs.Files.{EndsWith};
ghost use Rattle.mg_words.specs.Words.{Client};
ghost use Rattle.mg_top.specs.Writing.{clients_written};
ghost use Rattle.mg_top.specs.inner.Preparing.{target_of, IsCarried};

use crate::translate::{Target, file_in};
use mg_client::{ClientFile, clients};
use mg_delivery::{Action, Delivery, Status};
use mg_refusal::Stop;
use mg_text::{Bytes, List, Memory, Text};
use std::alloc::Global;

/// The clients of all protocols, or the first refusal.
pub fn client(
    alloc: Global,
    to: &Target<'_>,
    names: &[Text],
    contents: &[Bytes],
) -> Result<Delivery, Stop>
    requires same { length names.now ≡ length contents.now }
    requires count { length contents.now < 2 ^ 32 }
    requires scribble { All (EndsWith (codes ".scr")) names.now }
    ensures { IsCarried (Client (target_of to.now).package_name (target_of to.now).folder names.now) contents.now result }
{
    let files = clients(alloc, to.package_name, names, contents)?;
    Ok(write_clients(alloc, to.folder, files.as_slice())?)
}

// The writes of these clients.
fn write_clients(
    alloc: Global,
    folder: Option<&Text>,
    files: &[ClientFile],
) -> Result<Delivery, Memory>
    ensures actions { IfOk result (λ d. d.actions.items ≡ clients_written (option_map (λ f. f.now) folder.entry) files.now) }
    ensures status { IfOk result (λ d. d.status ≡ Status.Done) }
{
    let mut actions = List::new(alloc);
    add_clients(alloc, folder, files, &mut actions)?;
    Ok(Delivery {
        actions,
        status: Status::Done,
    })
}

// Appends the writes of these clients.
fn add_clients(
    alloc: Global,
    folder: Option<&Text>,
    files: &[ClientFile],
    actions: &mut List<Action>,
) -> Result<(), Memory>
    ensures { OnOk result (actions.new.items ≡ actions.old.items ++ clients_written (option_map (λ f. f.now) folder.entry) files.now) }
{
    for file in files {
        let output = file_in(
            alloc,
            folder,
            file.name.as_str(),
            file.text.as_str().as_bytes(),
        )?;
        actions.push(Action::Write(output))?;
    }
    Ok(())
}
