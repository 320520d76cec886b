//! What a case asks for: the world in which its command runs, and what the run is to leave there,
//! also where calls fail in turn, or where a file is cut or changed.

use crate::commands::classes::files_for;
use crate::commands::given::{are_clear, line_of, numbers_of};
use crate::commands::torn::{each_bit, each_front};
use crate::commands::world::World;
use cases::Answer;
use mg_io::{FileList, Folder, HostFolder, IoFault, MemFolder, MemSink, NumberList};
use mg_text::Memory;
use std::alloc::Global;
use std::rt::Files;

/// Tells what the run that a case asks for leaves.
pub fn tell_asked<R: Files>(
    alloc: Global,
    answer: &mut Answer,
    rt: &R,
    given: &str,
) -> Result<(), Memory> {
    let (head, files) = given.split_once("\n>>> ").unwrap_or((given, ""));
    if !are_clear(head) {
        answer.add("out of form");
        return Ok(());
    }
    let asked = Asked { rt, head, files };
    match line_of(head, "each ") {
        "" => asked.tell_left(alloc, answer, Turn::NONE),
        each => match each.split_once(' ') {
            Some((what, name)) => asked.tell_torn(alloc, answer, what, name),
            None => asked.tell_failing(alloc, answer, each),
        },
    }
}

/// The call of a stream that fails beside those that a case lists.
#[derive(Clone, Copy)]
struct Turn<'a> {
    stream: &'a str,
    call: u32,
}

impl Turn<'_> {
    const NONE: Turn<'static> = Turn {
        stream: "",
        call: 0,
    };
}

/// The most calls of a stream that are let fail in turn.
const MOST_CALLS: u32 = 40;

/// What a case asks for, which may be files of this runtime.
#[derive(Drop)]
struct Asked<'a, R: Files> {
    rt: &'a R,
    /// The lines before its files.
    head: &'a str,
    /// Its files, each begun by its name.
    files: &'a str,
}

impl<'a, R: Files> Asked<'a, R> {
    // Tells what the run leaves.
    fn tell_left(&self, alloc: Global, answer: &mut Answer, turn: Turn<'_>) -> Result<(), Memory> {
        let mut world = self.world(alloc, turn)?;
        world.tell_run(alloc, answer, self.head)
    }

    // What the run leaves.
    fn left(&self, alloc: Global, turn: Turn<'_>) -> Result<String, Memory> {
        let mut answer = Answer::new(alloc);
        self.tell_left(alloc, &mut answer, turn)?;
        answer.into_text()
    }

    // Tells how it ends for each front of a file, or for each bit of it that is another.
    fn tell_torn(
        &self,
        alloc: Global,
        answer: &mut Answer,
        what: &str,
        name: &str,
    ) -> Result<(), Memory> {
        let world = self.world(alloc, Turn::NONE)?;
        let line = line_of(self.head, "mungo ");
        match what {
            "front" => each_front(alloc, answer, line, &world.folder, name),
            _ => each_bit(alloc, answer, line, &world.folder, name),
        }
    }

    // Tells what it leaves where each call of a stream fails in turn, up to the first that isn't made,
    // so that all is left; and then all.
    fn tell_failing(&self, alloc: Global, answer: &mut Answer, stream: &str) -> Result<(), Memory> {
        let whole = self.left(alloc, Turn::NONE)?;
        let whole = whole.as_str();
        for call in 0..MOST_CALLS {
            let one = self.left(alloc, Turn { stream, call })?;
            let one = one.as_str();
            if one == whole {
                break;
            }
            write!(answer, "{stream} {call} fails: {one}\n");
        }
        answer.pair("none fails: ", whole);
        Ok(())
    }

    // The world in which it runs.
    fn world(&self, alloc: Global, turn: Turn<'_>) -> Result<World, Memory> {
        let out = self.failing(alloc, "out", turn)?;
        let err = self.failing(alloc, "err", turn)?;
        Ok(World {
            folder: self.folder(alloc, turn)?,
            out: MemSink::new(alloc, out),
            err: MemSink::new(alloc, err),
        })
    }

    // The calls of a stream that fail.
    fn failing(&self, alloc: Global, stream: &str, turn: Turn<'_>) -> Result<NumberList, Memory> {
        if turn.stream == stream {
            return NumberList::of(alloc, &[turn.call]);
        }
        let word = match stream {
            "out" => "out fails ",
            "err" => "err fails ",
            _ => "folder fails ",
        };
        numbers_of(alloc, line_of(self.head, word))
    }

    fn folder(&self, alloc: Global, turn: Turn<'_>) -> Result<MemFolder, Memory> {
        let mut kept = FileList::new(alloc);
        self.add_files(alloc, &mut kept)?;
        let kept = files_for(alloc, self.head, kept)?;
        let failing = self.failing(alloc, "folder", turn)?;
        MemFolder::new(alloc, kept, failing)
    }

    // Adds its files, and those that lie here.
    fn add_files(&self, alloc: Global, kept: &mut FileList) -> Result<(), Memory> {
        if !self.files.is_empty() {
            for file in self.files.split("\n>>> ") {
                let (name, text) = file.split_once('\n').unwrap_or((file, ""));
                kept.add(alloc, name, text.as_bytes())?;
            }
        }
        add_files_here(alloc, self.rt, kept, line_of(self.head, "with "))
    }
}

/// The longest file here that a case may ask for.
const LIMIT: usize = 1_000_000;

// Adds the files of these names that lie here, where they do.
fn add_files_here<R: Files>(
    alloc: Global,
    rt: &R,
    kept: &mut FileList,
    names: &str,
) -> Result<(), Memory> {
    let mut here = HostFolder::new(alloc, rt);
    for name in names.split(' ') {
        match here.read(alloc, name, LIMIT) {
            Ok(bytes) => kept.add(alloc, name, bytes.as_slice())?,
            Err(IoFault::Failed) => {}
            Err(IoFault::Memory) => return Err(Memory),
        }
    }
    Ok(())
}
