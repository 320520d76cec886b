//! The top call: the words are judged, the files read, all output is made, and then delivered.

ghost use Rattle.std.specs.Prelude.{◌≡◌, ◌<◌, ◌^◌, length, IfOk};
ghost use Rattle.mg_words.specs.Words.{files_of};
ghost use Rattle.mg_delivery.specs.Outside.{Stream, outside, stream};
ghost use Rattle.mg_top.specs.Commands.{Yields, first_last, judged_names};
ghost use Rattle.mg_delivery.specs.Lines.{refusal_line};
ghost use Rattle.mg_top.specs.Ending.{read_limit};
ghost use Rattle.mg_top.specs.Promises.{Promises};
ghost use Rattle.mg_words.specs.inner.Judging.{command_of, IsKnown};
ghost use Rattle.mg_top.specs.inner.Preparing.{IsCarried, IsPrepared};

use crate::check::check;
use crate::client::client;
use crate::compile::compile;
use crate::conform::conform;
use crate::exec::exec;
use crate::fit::fit;
use crate::load::load;
use crate::project::project;
use crate::refine::refine;
use crate::run::run;
use crate::show::show;
use crate::translate::{Target, translate};
use crate::verify::verify;
use mg_delivery::{Delivery, Status, Unread, deliver, lines, read_all, starve};
use mg_io::{Folder, Sink};
use mg_load::file_names;
use mg_refusal::{Refusal, Stop};
use mg_runs::{courses_are_runs, each_order_has_a_course};
use mg_text::{Bytes, List, Memory, Text};
use mg_typed_law::{typable_runs_never_bad, written_classes_are_typable};
use mg_words::{Command, Judged, judge};
use std::alloc::Global;

// How much is read of a file of a protocol, a typestate, classes or calls, and of a class file.
const SOURCE_LIMIT: usize = 1_048_577;

const CLASS_LIMIT: usize = 16_777_217;

/// Runs the command that the words are, with the folder's files. What it says goes to `out`, and
/// the line of a fault to `err`; the status says how it ended. Files are read first, then all is made,
/// and only then are files written, and after them `out` and `err`, each in one piece.
///
/// `translate [--package P] [--out D] F..` reads the local protocols in the files and writes the typestates of
/// their roles and the classes by which programs play them, into the folder D where one is named.
/// `client [--package P] [--out D] F..` reads the same and writes for each protocol a class whose `main` plays all of it,
/// which is accepted by `check` beside the protocol's file.
/// `conform F CALLS` tells whether the calls of the second file follow the protocol of the first.
/// `project [--out D] F` reads the global protocol in the file and writes the local protocols of its
/// roles, into the folder D where one is named.
/// `refine A B` tells whether the typestate of the first file stands for that of the second: `yes`
/// and how many pairs of their places calls lead to; or `no`, the calls to where it fails, and why.
/// `check [--all] F..` tells what the least tables of the files' program have, where some tables solve it; else the
/// first that is wrong, or all of it where `--all` stands first.
/// `compile [--out D] F..` writes the class files of the files' program, into the folder D where one
/// is named.
/// `run [--steps N] [--order A,B,..] [--trace] [--out D] (--main C | --role R=C ..) F..` makes the same
/// class files, writes them where a folder D is named, reads their bytes back and runs them: the
/// `main` of the class C as the one role `main`, or for each `--role R=C` that of the class C as the
/// role R. The roles take turns in the order of the words, or in the order A,B,.. where it is named,
/// again and again, one instruction a turn, and send messages to each other; the run stops where each
/// role has ended or waits for a message, or where they took N instructions in all, N from 1 to
/// 20,000,000, or 1,000,000 where none is named. What they print goes to `out` in the order in which
/// they printed it, behind `R: ` where roles are named. To `err` goes the trace where it is asked for,
/// and then for each role the line `R: K instructions, ENDING` with how many it took and how it stands.
/// `exec [--steps N] [--order A,B,..] [--trace] (--main C | --role R=C ..) F..` runs class files as they
/// are, in the same way: nothing is asked of how they were made, so that a role may also end at a null
/// or because its code is wrong. What a method answered is told as a number in the trace.
/// `verify F..` tells how many methods the class files have, where each of them has a typing.
/// `fit --role R=C .. G F..` tells whether the roles, each run from the `main` of its class, fit the
/// global protocol in the file G: `fits`, where it is proved that in no run of them one gets stuck on
/// the others, or the first fault.
/// `show F..` tells for each call of a protocol method in the files' program what its variable may be there, and where
/// the call leads.
/// `load N SEED` makes the files of a workload of two roles that answer each other, over a choice of
/// N branches, from 1 to 400, in 4 * N rounds that the number SEED picks, and runs them as `run` does,
/// up to 20,000,000 instructions. Behind what was printed stands how many rounds and messages there
/// were. It reads and writes no file.
pub fn mungo<F: Folder, O: Sink, E: Sink>(
    alloc: Global,
    words: &[Text],
    folder: &mut F,
    out: &mut O,
    err: &mut E,
) -> Status
    ensures { Promises words.now
        (outside (F.files folder.old) (F.failed_reads folder.old) (F.failed_writes folder.old)
        (stream (O.bytes out.old) (O.faults out.old)) (stream (E.bytes err.old) (E.faults err.old)))
        result
        (outside (F.files folder.new) (F.failed_reads folder.new) (F.failed_writes folder.new)
        (stream (O.bytes out.new) (O.faults out.new)) (stream (E.bytes err.new) (E.faults err.new))) }
{
    courses_are_runs();
    each_order_has_a_course();
    written_classes_are_typable();
    typable_runs_never_bad();
    match prepare(alloc, words, folder) {
        Ok(delivery) => deliver(alloc, &delivery, folder, out, err),
        Err(Memory) => starve(err),
    }
}

// What is to be done about these words: the files are read, and nothing else is done.
fn prepare<F: Folder>(alloc: Global, words: &[Text], folder: &mut F) -> Result<Delivery, Memory>
    ensures { (o e : Stream) → IsPrepared words.now
        (outside (F.files folder.old) (F.failed_reads folder.old) (F.failed_writes folder.old) o e)
        result
        (outside (F.files folder.new) (F.failed_reads folder.new) (F.failed_writes folder.new) o e) }
{
    let command = match judge(alloc, words)? {
        Judged::Known(command) => command,
        Judged::Wrong(word) => {
            let line = lines::wrong_words(alloc, word)?;
            return Delivery::said(alloc, line, Status::Words);
        }
    };
    match read_all(alloc, command.files(), read_limit(&command), folder) {
        Ok(contents) => carry_out(alloc, &command, contents.as_slice()),
        Err(Unread::Failed(name)) => {
            let line = lines::unread(alloc, name)?;
            Delivery::said(alloc, line, Status::ReadFault)
        }
        Err(Unread::Memory) => Err(Memory),
    }
}

// How many bytes of a file a command reads: one more than such a file may have.
fn read_limit(command: &Command<'_>) -> usize
    ensures { result ≡ read_limit (command_of command.now) }
{
    match command {
        Command::Translate { .. }
        | Command::Client { .. }
        | Command::Conform { .. }
        | Command::Check { .. }
        | Command::Compile { .. }
        | Command::Run { .. }
        | Command::Refine { .. }
        | Command::Project { .. }
        | Command::Load { .. }
        | Command::Fit { .. }
        | Command::Show { .. } => SOURCE_LIMIT,
        Command::Exec { .. } | Command::Verify { .. } => CLASS_LIMIT,
    }
}

// What a command does about the contents of its files; of their first refusal it says the line.
fn carry_out(alloc: Global, command: &Command<'_>, contents: &[Bytes]) -> Result<Delivery, Memory>
    requires known { IsKnown (command_of command.now) }
    requires same { length (files_of (command_of command.now)) ≡ length contents.now }
    requires count { length contents.now < 2 ^ 32 }
    ensures { IfOk result (λ d. Yields (command_of command.now) contents.now d.actions.items d.status) }
{
    match carried_out(alloc, command, contents) {
        Ok(delivery) => Ok(delivery),
        Err(Stop::Refused(refusal)) => {
            let line = line_of(alloc, command, &refusal)?;
            Delivery::said(alloc, line, Status::Refused)
        }
        Err(Stop::Memory) => Err(Memory),
    }
}

// The line of a refusal of the files that a command judges.
fn line_of(alloc: Global, command: &Command<'_>, refusal: &Refusal) -> Result<Text, Memory>
    ensures { IfOk result (λ t. t ≡ refusal_line (judged_names (command_of command.now)) refusal.now) }
{
    match *command {
        Command::Load { .. } => {
            let names = file_names(alloc)?;
            lines::refused(alloc, names.as_slice(), refusal)
        }
        Command::Fit { files, .. } => {
            let names = first_last(alloc, files)?;
            lines::refused(alloc, names.as_slice(), refusal)
        }
        _ => lines::refused(alloc, command.files(), refusal),
    }
}

// These names, the first of them behind the others.
fn first_last(alloc: Global, files: &[Text]) -> Result<List<Text>, Memory>
    ensures { IfOk result (λ l. l.items ≡ first_last files.now) }
{
    let mut names = List::new(alloc);
    let Some((first, others)) = files.split_first() else {
        return Ok(names);
    };
    for other in others {
        let name = other.copy()?;
        names.push(name)?;
    }
    let last = first.copy()?;
    names.push(last)?;
    Ok(names)
}

// What a command does about the contents of its files, or their first refusal.
fn carried_out(alloc: Global, command: &Command<'_>, contents: &[Bytes]) -> Result<Delivery, Stop>
    requires known { IsKnown (command_of command.now) }
    requires same { length (files_of (command_of command.now)) ≡ length contents.now }
    requires count { length contents.now < 2 ^ 32 }
    ensures { IsCarried (command_of command.now) contents.now result }
{
    match *command {
        Command::Translate {
            package_name,
            folder,
            files,
        } => translate(
            alloc,
            &Target {
                package_name,
                folder,
            },
            files,
            contents,
        ),
        Command::Client {
            package_name,
            folder,
            files,
        } => client(
            alloc,
            &Target {
                package_name,
                folder,
            },
            files,
            contents,
        ),
        Command::Conform { .. } => {
            conform(alloc, contents[0].as_slice(), contents[1].as_slice())
        }
        Command::Check { all, files } => check(alloc, all, files, contents),
        Command::Compile { folder, files } => compile(alloc, folder, files, contents),
        Command::Run { asked, files } => run(alloc, &asked, files, contents),
        Command::Exec { asked, .. } => exec(alloc, &asked, contents),
        Command::Refine { files } => refine(alloc, files, contents),
        Command::Project { folder, .. } => project(alloc, folder, contents),
        Command::Load { branches, seed } => load(alloc, branches, seed),
        Command::Verify { .. } => verify(alloc, contents),
        Command::Fit { cast, files } => fit(alloc, &cast, files, contents),
        Command::Show { files } => show(alloc, files, contents),
    }
}
