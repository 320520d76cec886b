//! A folder and sinks in memory, in which a command is run, and what it leaves, as lines: its
//! status, how often the folder was called, what was put on the sinks, and files.

use crate::commands::calling::status_of;
use crate::commands::given::{line_of, words_of};
use cases::Answer;
use mg_io::{FileList, MemFolder, MemSink, NumberList};
use mg_text::Memory;
use mg_top::Status;
use std::alloc::Global;

/// What a command is run in.
pub struct World {
    pub folder: MemFolder,
    pub out: MemSink,
    pub err: MemSink,
}

impl Drop for World {
    fn drop(self) {
        let World {
            folder: _,
            out: _,
            err: _,
        } = self;
    }
}

impl World {
    /// A world of these files, in which nothing fails.
    pub fn of(alloc: Global, files: FileList) -> Result<World, Memory> {
        Ok(World {
            folder: MemFolder::new(alloc, files, NumberList::new(alloc))?,
            out: MemSink::new(alloc, NumberList::new(alloc)),
            err: MemSink::new(alloc, NumberList::new(alloc)),
        })
    }

    /// How the command of a line of words ends.
    pub fn run(&mut self, alloc: Global, line: &str) -> Result<Status, Memory> {
        let words = words_of(alloc, line)?;
        let words = words.as_slice();
        Ok(status_of(alloc, words, &mut self.folder, &mut self.out, &mut self.err))
    }

    /// Runs the command of a case, and tells what it leaves.
    pub fn tell_run(
        &mut self,
        alloc: Global,
        answer: &mut Answer,
        head: &str,
    ) -> Result<(), Memory> {
        let status = self.run(alloc, line_of(head, "mungo "))?;
        self.tell_ending(answer, status);
        tell_files(answer, &self.folder, line_of(head, "shows "));
        tell_bytes(answer, &self.folder, line_of(head, "bytes "));
        Ok(())
    }

    // Tells a status, how often the folder was called, and what was put on the sinks.
    fn tell_ending(&self, answer: &mut Answer, status: Status) {
        answer.add("status ");
        answer.show(&status.number());
        answer.add(" after ");
        answer.show(&self.folder.calls());
        answer.add(" calls");
        tell(answer, "out: ", self.out.bytes());
        tell(answer, "err: ", self.err.bytes());
    }
}

// Tells the contents of the files of these names.
fn tell_files(answer: &mut Answer, folder: &MemFolder, names: &str) {
    for name in names.split(' ') {
        tell_file(answer, name, folder.content(name));
    }
}

// Tells the bytes of the files of these names that are there.
fn tell_bytes(answer: &mut Answer, folder: &MemFolder, names: &str) {
    for name in names.split(' ') {
        if let Some(bytes) = folder.content(name) {
            answer.pair("\n>>> ", name);
            tell_digits(answer, bytes);
        }
    }
}

/// How many bytes are told in a line.
const IN_A_LINE: usize = 32;

// Tells bytes by two hexadecimal digits each.
fn tell_digits(answer: &mut Answer, bytes: &[u8]) {
    for piece in bytes.chunks(IN_A_LINE) {
        answer.add("\n");
        for byte in piece {
            answer.hexadecimal(u32::from(*byte));
        }
    }
}

// Tells a file, or that there is none. A file with no name isn't told.
fn tell_file(answer: &mut Answer, name: &str, content: Option<&[u8]>) {
    match content {
        Some(bytes) => {
            answer.pair("\n>>> ", name);
            tell(answer, "", bytes);
        }
        None if name.is_empty() => {}
        None => answer.pair("\nno ", name),
    }
}

/// The most bytes that are told. Of more the count is told.
const MOST: usize = 2000;

// Tells bytes in lines, each behind a label.
fn tell(answer: &mut Answer, label: &str, bytes: &[u8]) {
    let count = bytes.len();
    if count == 0 {
        return;
    }
    if count > MOST {
        return tell_count(answer, label, count, " bytes");
    }
    match str::from_utf8(bytes) {
        Ok(text) => tell_lines(answer, label, text),
        Err(_) => tell_count(answer, label, count, " bytes, no UTF-8"),
    }
}

fn tell_count(answer: &mut Answer, label: &str, count: usize, unit: &str) {
    answer.pair("\n", label);
    answer.show(&count);
    answer.add(unit);
}

fn tell_lines(answer: &mut Answer, label: &str, text: &str) {
    let (lines, end) = match text.strip_suffix('\n') {
        Some(lines) => (lines, ""),
        None => (text, " and no line end"),
    };
    for line in lines.split('\n') {
        answer.pair("\n", label);
        answer.add(line);
    }
    answer.add(end);
}
