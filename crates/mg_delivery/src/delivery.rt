//! What a command gives: files to be written and texts to be put, all made beforehand.
//! Its delivery does them one after another, up to the first that fails.

ghost use Rattle.std.specs.Prelude.{◌≡◌, [], ◌∷◌, IfOk};
ghost use Rattle.mg_delivery.specs.Lines.{write_line, memory_line};
ghost use Rattle.mg_delivery.specs.Outside.{Outside, outside, stream};
ghost use Rattle.mg_delivery.specs.Delivery.{Acts, SaysFault, Tells, Delivers};

use crate::{Status, lines};
use mg_io::{Folder, IoFault, Sink};
use mg_text::{Bytes, List, Memory, Text};
use std::alloc::Global;
use std::marker::Model;

/// A file to be written, with the line that is said where that fails.
#[derive(Drop)]
pub struct Output {
    name: Text,
    text: Bytes,
    fault: Text,
}

impl Model for Output {
    ghost use Rattle.std.specs.Prelude.{◌≡◌};
    ghost use Rattle.mg_delivery.specs.Files.{Output as Written};
    ghost use Rattle.mg_delivery.specs.Lines.{write_line};

    ghost Value = { Written };

    ghost view = { λ o. record { name = o.name; text = o.text } };

    ghost invariant = { λ o. o.fault ≡ write_line o.name };
}

impl Output {
    /// The file of this name with this text.
    pub fn new(alloc: Global, name: Text, text: Bytes) -> Result<Output, Memory>
        ensures { IfOk result (λ o. o ≡ record { name = name; text = text }) }
    {
        let fault = lines::unwritten(alloc, &name)?;
        Ok(Output { name, text, fault })
    }

    /// The file's name.
    pub fn name(&self) -> &Text
        ensures { result.now ≡ self.now.name }
    {
        &self.name
    }

    /// What it is to hold.
    pub fn text(&self) -> &[u8]
        ensures { result.now ≡ self.now.text }
    {
        self.text.as_slice()
    }

    /// The line that is said where it can't be written.
    pub fn fault(&self) -> &Text
        ensures { result.now ≡ write_line self.now.name }
    {
        &self.fault
    }
}

/// One thing that is done outside.
#[derive(Drop)]
pub enum Action {
    /// A file is written.
    Write(Output),
    /// A text is put on standard output.
    Print(Bytes),
    /// A line is put on standard error.
    Say(Text),
}

/// What is done outside, in this order, and the status that it then has.
#[derive(Drop)]
pub struct Delivery {
    pub actions: List<Action>,
    pub status: Status,
}

impl Delivery {
    /// A line on standard error, and this status.
    pub fn said(alloc: Global, line: Text, status: Status) -> Result<Delivery, Memory>
        ensures actions { IfOk result (λ d. d.actions.items ≡ Action.Say line ∷ []) }
        ensures status { IfOk result (λ d. d.status ≡ status) }
    {
        let mut actions = List::new(alloc);
        actions.push(Action::Say(line))?;
        Ok(Delivery { actions, status })
    }

    /// A text on standard output, and this status.
    pub fn printed(alloc: Global, text: &str, status: Status) -> Result<Delivery, Memory>
        ensures actions { IfOk result (λ d. d.actions.items ≡ Action.Print text.now ∷ []) }
        ensures status { IfOk result (λ d. d.status ≡ status) }
    {
        let text = Bytes::of(alloc, text.as_bytes())?;
        let mut actions = List::new(alloc);
        actions.push(Action::Print(text))?;
        Ok(Delivery { actions, status })
    }
}

/// Does what is to be done. A folder or a sink that fails makes it `WriteFault`, after the line
/// of a file that couldn't be written; want of memory makes it `Memory`. Then the rest is left.
pub fn deliver<F: Folder, O: Sink, E: Sink>(
    alloc: Global,
    delivery: &Delivery,
    folder: &mut F,
    out: &mut O,
    err: &mut E,
) -> Status
    ensures { Delivers delivery.now.actions.items delivery.now.status
        (outside (F.files folder.old) (F.failed_reads folder.old) (F.failed_writes folder.old)
        (stream (O.bytes out.old) (O.faults out.old)) (stream (E.bytes err.old) (E.faults err.old)))
        result
        (outside (F.files folder.new) (F.failed_reads folder.new) (F.failed_writes folder.new)
        (stream (O.bytes out.new) (O.faults out.new)) (stream (E.bytes err.new) (E.faults err.new))) }
{
    let actions = delivery.actions.as_slice();
    for action in actions {
        match perform(alloc, action, folder, out, err) {
            Ok(()) => {}
            Err(IoFault::Failed) => return tell(action, err),
            Err(IoFault::Memory) => return Status::Memory,
        }
    }
    delivery.status
}

/// Says that memory lacks, which takes none.
pub fn starve<E: Sink>(err: &mut E) -> Status
    ensures { (at : Outside) → at.err ≡ stream (E.bytes err.old) (E.faults err.old)
        → Delivers (Action.Say memory_line ∷ []) Status.Memory at result
        (record at { err = stream (E.bytes err.new) (E.faults err.new) }) }
{
    match err.put(lines::MEMORY.as_bytes()) {
        Ok(()) => Status::Memory,
        Err(IoFault::Failed) => Status::WriteFault,
        Err(IoFault::Memory) => Status::Memory,
    }
}

// Does one action.
fn perform<F: Folder, O: Sink, E: Sink>(
    alloc: Global,
    action: &Action,
    folder: &mut F,
    out: &mut O,
    err: &mut E,
) -> Result<(), IoFault>
    ensures { Acts action.now result
        (outside (F.files folder.old) (F.failed_reads folder.old) (F.failed_writes folder.old)
        (stream (O.bytes out.old) (O.faults out.old)) (stream (E.bytes err.old) (E.faults err.old)))
        (outside (F.files folder.new) (F.failed_reads folder.new) (F.failed_writes folder.new)
        (stream (O.bytes out.new) (O.faults out.new)) (stream (E.bytes err.new) (E.faults err.new))) }
{
    match action {
        Action::Write(file) => folder.write(alloc, file.name().as_str(), file.text()),
        Action::Print(text) => out.put(text.as_slice()),
        Action::Say(line) => err.put(line.as_str().as_bytes()),
    }
}

// Says that an action failed: the line of a file that couldn't be written. A failed sink has none.
fn tell<E: Sink>(action: &Action, err: &mut E) -> Status
    ensures { (at : Outside) → at.err ≡ stream (E.bytes err.old) (E.faults err.old)
        → Tells action.now at result (record at { err = stream (E.bytes err.new) (E.faults err.new) }) }
{
    match action {
        Action::Write(file) => say_fault(file.fault(), err),
        Action::Print(_) => Status::WriteFault,
        Action::Say(_) => Status::WriteFault,
    }
}

// Puts the line of a file that couldn't be written.
fn say_fault<E: Sink>(line: &Text, err: &mut E) -> Status
    ensures { (at : Outside) → at.err ≡ stream (E.bytes err.old) (E.faults err.old)
        → SaysFault line.now at result (record at { err = stream (E.bytes err.new) (E.faults err.new) }) }
{
    match err.put(line.as_str().as_bytes()) {
        Ok(()) => Status::WriteFault,
        Err(IoFault::Failed) => Status::WriteFault,
        Err(IoFault::Memory) => Status::Memory,
    }
}
