//! The program mungo: the words of the command line, the host's files and its two output streams
//! go to the top call, and the number of its status is the exit status.
#![tactic(auto)]

ghost use Rattle.std.specs.Prelude.{◌≡◌, ◌≢◌, None, map, drop, IfOk, string_bytes};
ghost use Rattle.std.specs.IoError.{error_kind};
ghost use Rattle.std.specs.Process.{exit_status};
ghost use Rattle.std.specs.Vec.Iter.{into_iter_items};
ghost use Rattle.mg_delivery.specs.Numbers.{number_of};
ghost use Rattle.mg_delivery.specs.Outside.{outside, stream};
ghost use Rattle.mg_top.specs.Promises.{Promises};
ghost use Rattle.mg_delivery.specs.declared.status.Status.{Status as Kept};

use mg_io::{HostFolder, HostSink};
use mg_text::{List, Memory, Text};
use mg_top::{Status, mungo};
use std::alloc::Global;
use std::env::{self, Args};
use std::io::{self, ErrorKind, Stderr, Stdout};
use std::process::ExitCode;
use std::rt::Files;

fn main(rt: HostRuntime) -> ExitCode {
    let words = match env::args(&rt) {
        Ok(args) => match words_of(rt.alloc(), args) {
            Ok(words) => words,
            Err(Memory) => return exit_code(Status::Memory),
        },
        Err(error) => return exit_code(refused(&error)),
    };
    let alloc = rt.alloc();
    let mut folder = HostFolder::new(alloc, &rt);
    let mut out = HostSink::new(rt.stdout());
    let mut err = HostSink::new(rt.stderr());
    hosted(alloc, words.as_slice(), &mut folder, &mut out, &mut err)
}

// Runs the command that the words are over the host's files and streams, each of which stands in its place by its type,
// and ends with the number of its status. What fails of them is what is promised of it.
fn hosted<R: Files>(
    alloc: Global,
    words: &[Text],
    folder: &mut HostFolder<'_, R>,
    out: &mut HostSink<Stdout>,
    err: &mut HostSink<Stderr>,
) -> ExitCode
    ensures { (status : Kept) × (exit_status result ≡ number_of status) × Promises words.now
        (outside None folder.old.reads folder.old.writes (stream None out.old.faults) (stream None err.old.faults))
        status
        (outside None folder.new.reads folder.new.writes (stream None out.new.faults) (stream None err.new.faults)) }
{
    let status = mungo(alloc, words, folder, out, err);
    exit_code(status)
}

// The words behind the program's name.
fn words_of(alloc: Global, mut args: Args) -> Result<List<Text>, Memory>
    ensures { IfOk result (λ l. l.items ≡ map string_bytes (drop 1 (into_iter_items args))) }
{
    let _name = args.next();
    rest_of(alloc, args)
}

// All of these words.
fn rest_of(alloc: Global, args: Args) -> Result<List<Text>, Memory>
    ensures { IfOk result (λ l. l.items ≡ map string_bytes (into_iter_items args)) }
{
    let mut words = List::new(alloc);
    for word in args {
        words.push(Text::from_string(word))?;
    }
    Ok(words)
}

// Words that can't be had are no command, where memory doesn't lack: one of them isn't UTF-8.
fn refused(error: &io::Error) -> Status
    ensures memory { error_kind error.now ≡ ErrorKind.OutOfMemory → result ≡ Status.Memory }
    ensures words { error_kind error.now ≢ ErrorKind.OutOfMemory → result ≡ Status.Words }
{
    if error.kind() == ErrorKind::OutOfMemory {
        Status::Memory
    } else {
        Status::Words
    }
}

// The exit status is the number of the status.
fn exit_code(status: Status) -> ExitCode
    ensures { exit_status result ≡ number_of status }
{
    ExitCode::from(status.number())
}
