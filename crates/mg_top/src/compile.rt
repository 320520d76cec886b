//! The command `compile`: the class files of a program, or its first refusal.

ghost use Rattle.std.specs.Prelude.{◌≡◌, ◌<◌, ◌^◌, ◌++◌, length, IfOk, OnOk, option_map};
ghost use Rattle.mg_sources.specs.Files.{HaveKinds};
ghost use Rattle.mg_words.specs.Words.{Compile};
ghost use Rattle.mg_top.specs.Writing.{classes_written};
ghost use Rattle.mg_top.specs.inner.Preparing.{IsCarried};

use crate::translate::file_in;
use mg_compile::ClassFile;
use mg_delivery::{Action, Delivery, Status};
use mg_refusal::Stop;
use mg_text::{Bytes, List, Memory, Text};
use std::alloc::Global;

/// The class files of the program that the files are, or the first refusal.
pub fn compile(
    alloc: Global,
    folder: Option<&Text>,
    names: &[Text],
    contents: &[Bytes],
) -> Result<Delivery, Stop>
    requires same { length names.now ≡ length contents.now }
    requires count { length contents.now < 2 ^ 32 }
    requires kinds { HaveKinds names.now }
    ensures { IsCarried (Compile (option_map (λ f. f.now) folder.entry) names.now) contents.now result }
{
    let files = mg_compile::compile(alloc, names, contents)?;
    Ok(write_files(alloc, folder, files.as_slice())?)
}

// The writes of these class files.
fn write_files(
    alloc: Global,
    folder: Option<&Text>,
    files: &[ClassFile],
) -> Result<Delivery, Memory>
    ensures actions { IfOk result (λ d. d.actions.items ≡ classes_written (option_map (λ f. f.now) folder.entry) files.now) }
    ensures status { IfOk result (λ d. d.status ≡ Status.Done) }
{
    let mut actions = List::new(alloc);
    add_classes(alloc, folder, files, &mut actions)?;
    Ok(Delivery {
        actions,
        status: Status::Done,
    })
}

/// Appends the writes of these class files.
pub fn add_classes(
    alloc: Global,
    folder: Option<&Text>,
    files: &[ClassFile],
    actions: &mut List<Action>,
) -> Result<(), Memory>
    ensures { OnOk result (actions.new.items ≡ actions.old.items ++ classes_written (option_map (λ f. f.now) folder.entry) files.now) }
{
    for file in files {
        let output = file_in(alloc, folder, file.name.as_str(), file.bytes.as_slice())?;
        actions.push(Action::Write(output))?;
    }
    Ok(())
}
