//! Tests of the fakes in memory and of the adapters.
//! What a test asks for is answered by a function that returns whether all is as wanted.

use mg_io::*;
use mg_text::{Memory, Text};
use std::alloc::Global;
use std::rt::Files;
use std::{fs, io};

/// A call of a folder, and what it is to give.
#[derive(Clone, Copy)]
enum Call<'a> {
    /// The file of this name, so many bytes of it at most, and those that are read.
    Read(&'a str, usize, &'a str),
    /// A file that isn't read.
    NoRead(&'a str),
    /// The file of this name, and what it holds then.
    Write(&'a str, &'a str),
    /// A file that isn't written.
    NoWrite(&'a str, &'a str),
}

// Whether a folder gives these bytes of a file, or fails where there are none.
fn reads(
    alloc: Global,
    folder: &mut impl Folder,
    name: &str,
    limit: usize,
    wanted: Option<&[u8]>,
) -> bool {
    match folder.read(alloc, name, limit) {
        Ok(bytes) => wanted == Some(bytes.as_slice()),
        Err(fault) => wanted.is_none() && fault == IoFault::Failed,
    }
}

// Whether a folder writes a file, or fails where it is to.
fn writes(alloc: Global, folder: &mut impl Folder, name: &str, text: &[u8], wanted: bool) -> bool {
    match folder.write(alloc, name, text) {
        Ok(()) => wanted,
        Err(fault) => !wanted && fault == IoFault::Failed,
    }
}

fn gives(alloc: Global, folder: &mut impl Folder, call: Call<'_>) -> bool {
    match call {
        Call::Read(name, limit, text) => reads(alloc, folder, name, limit, Some(text.as_bytes())),
        Call::NoRead(name) => reads(alloc, folder, name, 9, None),
        Call::Write(name, text) => writes(alloc, folder, name, text.as_bytes(), true),
        Call::NoWrite(name, text) => writes(alloc, folder, name, text.as_bytes(), false),
    }
}

fn gives_all(alloc: Global, folder: &mut impl Folder, calls: &[Call<'_>]) -> bool {
    for call in calls {
        if !gives(alloc, folder, *call) {
            return false;
        }
    }
    true
}

fn is_alone(names: &[Text], wanted: &str) -> bool {
    match names {
        [name] => name.as_str() == wanted,
        _ => false,
    }
}

// The call with the number 2 is to fail.
const IN_MEMORY: [Call<'static>; 4] = [
    Call::Read("a", 4, "hell"),
    Call::NoRead("b"),
    Call::NoWrite("a", "new"),
    Call::Write("c", "new"),
];

fn folder_in_memory(alloc: Global) -> Result<MemFolder, Memory> {
    let mut files = FileList::new(alloc);
    files.add(alloc, "a", b"hello")?;
    let failing = NumberList::of(alloc, &[2])?;
    MemFolder::new(alloc, files, failing)
}

fn fails_as_listed(alloc: Global, folder: &mut MemFolder) -> bool {
    gives_all(alloc, folder, IN_MEMORY.as_slice())
        && folder.content("a") == Some(b"hello".as_slice())
        && folder.content("c") == Some(b"new".as_slice())
        && folder.calls() == 4
        && is_alone(folder.failed_reads(), "b")
        && is_alone(folder.failed_writes(), "a")
}

#[test]
fn a_folder_in_memory_reads_writes_and_fails_as_listed(rt: HostRuntime) {
    match folder_in_memory(rt.alloc()) {
        Ok(mut folder) => assert!(rt; fails_as_listed(rt.alloc(), &mut folder)),
        Err(Memory) => assert!(rt; false),
    }
}

const WRITTEN: [Call<'static>; 3] = [
    Call::Write("mg_io_test_file", "hello"),
    Call::Read("mg_io_test_file", 4, "hell"),
    Call::Read("mg_io_test_file", 9, "hello"),
];

const REMOVED: [Call<'static>; 3] = [
    Call::NoRead("mg_io_test_file"),
    Call::NoWrite("mg_io_no_folder/file", "x"),
    Call::NoRead("."),
];

fn keeps_files<R: Files>(rt: &R, alloc: Global) -> bool {
    let mut folder = HostFolder::new(alloc, rt);
    gives_all(alloc, &mut folder, WRITTEN.as_slice())
        && fs::remove_file(rt, "mg_io_test_file").is_ok()
        && gives_all(alloc, &mut folder, REMOVED.as_slice())
        && folder.failed_reads().len() == 2
        && folder.failed_writes().len() == 1
}

#[test]
fn the_real_files_keep_what_is_written(rt: HostRuntime) {
    assert!(rt; keeps_files(&rt, rt.alloc()));
}

// Whether a sink takes each of these pieces, and fails at those that are to fail.
fn takes(sink: &mut impl Sink, pieces: &[(&str, bool)]) -> bool {
    for (piece, wanted) in pieces {
        let taken = match sink.put(piece.as_bytes()) {
            Ok(()) => *wanted,
            Err(fault) => !*wanted && fault == IoFault::Failed,
        };
        if !taken {
            return false;
        }
    }
    true
}

// Nothing is no piece; of the others the one with the number 1 is to fail.
const PIECES: [(&str, bool); 4] = [("", true), ("ab", true), ("cd", false), ("ef", true)];

fn puts_as_listed(alloc: Global) -> Result<bool, Memory> {
    let mut sink = MemSink::new(alloc, NumberList::of(alloc, &[1])?);
    let is_taken = takes(&mut sink, PIECES.as_slice());
    Ok(is_taken && sink.bytes() == b"abef".as_slice() && sink.faults() == 1)
}

#[test]
fn a_sink_in_memory_fails_as_listed(rt: HostRuntime) {
    assert!(rt; puts_as_listed(rt.alloc()).unwrap_or(false));
}

/// A writer that takes at most `width` bytes at a time, and none past `room`.
#[derive(Drop)]
struct Narrow {
    taken: Vec<u8>,
    width: usize,
    room: usize,
}

impl io::Write for Narrow {
    fn write(&mut self, bytes: &[u8]) -> io::Result<usize> {
        let n = bytes.len().min(self.width).min(self.room);
        self.taken.extend_from_slice(&bytes[..n])?;
        self.room -= n;
        Ok(n)
    }

    fn flush(&mut self) -> io::Result<()> {
        Ok(())
    }
}

const NARROW: [(&str, bool); 3] = [("abcdefg", true), ("hij", false), ("", true)];

fn takes_bit_by_bit(alloc: Global) -> bool {
    let mut narrow = Narrow {
        taken: Vec::new(alloc),
        width: 3,
        room: 9,
    };
    let mut sink = HostSink::new(&mut narrow);
    let is_taken = takes(&mut sink, NARROW.as_slice()) && sink.faults() == 1;
    is_taken && narrow.taken.as_slice() == b"abcdefghi".as_slice()
}

#[test]
fn a_stream_takes_a_piece_bit_by_bit_or_fails(rt: HostRuntime) {
    assert!(rt; takes_bit_by_bit(rt.alloc()));
}

// How many bytes stand in the large file, and in the large piece.
const LARGE: usize = 300_000;

// How many bytes a source may have. One more is read, so that a larger one shows.
const SOURCE: usize = 1_048_576;

// Whether a file that is written is read whole.
fn is_kept(alloc: Global, folder: &mut impl Folder, name: &str, text: &[u8]) -> bool {
    writes(alloc, folder, name, text, true) && reads(alloc, folder, name, SOURCE + 1, Some(text))
}

const LARGE_FILE: &str = "mg_io_large_file";

fn keeps_large<R: Files>(rt: &R, alloc: Global, text: &[u8]) -> bool {
    let mut folder = HostFolder::new(alloc, rt);
    is_kept(alloc, &mut folder, LARGE_FILE, text)
        && reads(alloc, &mut folder, LARGE_FILE, 100_000, text.get(..100_000))
        && is_kept(alloc, &mut folder, LARGE_FILE, b"short")
        && fs::remove_file(rt, LARGE_FILE).is_ok()
}

#[test]
fn a_large_file_is_kept_whole_and_then_replaced(rt: HostRuntime) {
    match vec![in rt.alloc(); b'x'; LARGE] {
        Ok(text) => assert!(rt; keeps_large(&rt, rt.alloc(), text.as_slice())),
        Err(_) => assert!(rt; false),
    }
}

const SOURCE_FILE: &str = "mg_io_source_file";

fn keeps_source<R: Files>(rt: &R, alloc: Global, text: &[u8]) -> bool {
    let mut folder = HostFolder::new(alloc, rt);
    is_kept(alloc, &mut folder, SOURCE_FILE, text)
        && fs::remove_file(rt, SOURCE_FILE).is_ok()
        && folder.failed_reads().is_empty()
}

#[test]
fn a_file_as_large_as_a_source_is_read_whole(rt: HostRuntime) {
    match vec![in rt.alloc(); b'x'; SOURCE] {
        Ok(text) => assert!(rt; keeps_source(&rt, rt.alloc(), text.as_slice())),
        Err(_) => assert!(rt; false),
    }
}

// Whether a piece of so many bytes is put whole over a writer that takes so many at a time.
fn takes_large(alloc: Global, size: usize, width: usize) -> bool {
    let Ok(text) = vec![in alloc; b'x'; size] else {
        return false;
    };
    let mut narrow = Narrow {
        taken: Vec::new(alloc),
        width,
        room: size,
    };
    let mut sink = HostSink::new(&mut narrow);
    let is_put = sink.put(text.as_slice()).is_ok() && sink.faults() == 0;
    is_put && narrow.taken.as_slice() == text.as_slice()
}

#[test]
fn a_stream_takes_a_large_piece(rt: HostRuntime) {
    let all_taken = takes_large(rt.alloc(), LARGE, LARGE)
        && takes_large(rt.alloc(), LARGE, 1_000)
        && takes_large(rt.alloc(), SOURCE + 1, SOURCE + 1)
        && takes_large(rt.alloc(), SOURCE + 1, 70_000);
    assert!(rt; all_taken);
}

/// A writer that takes all bytes, and can't be flushed.
#[derive(Drop)]
struct Stuck {
    taken: usize,
}

impl io::Write for Stuck {
    fn write(&mut self, bytes: &[u8]) -> io::Result<usize> {
        self.taken = self.taken.saturating_add(bytes.len());
        Ok(bytes.len())
    }

    fn flush(&mut self) -> io::Result<()> {
        Err(io::Error::from(io::ErrorKind::BrokenPipe))
    }
}

fn fails_at_flush() -> bool {
    let mut stuck = Stuck { taken: 0 };
    let mut sink = HostSink::new(&mut stuck);
    let is_failed = sink.put(b"ab") == Err(IoFault::Failed) && sink.faults() == 1;
    is_failed && stuck.taken == 2
}

#[test]
fn a_stream_that_can_t_be_flushed_fails(rt: HostRuntime) {
    assert!(rt; fails_at_flush());
}
