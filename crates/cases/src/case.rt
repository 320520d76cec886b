//! A case, and the files that one may give.

ghost use Rattle.std.specs.Prelude.{◌≡◌, ◌↔◌, IsTrue};

use crate::escapes::Spelled;
use mg_text::Memory;
use std::alloc::Global;

/// One case of a file: what it is called, what is given, and what is wanted.
#[derive(Drop)]
pub struct Case {
    pub name: String,
    pub given: Spelled,
    pub wanted: Spelled,
}

impl Case {
    /// Whether an answer is the wanted one.
    pub fn wants(&self, answer: &str) -> bool
        ensures { IsTrue result ↔ (self.now.wanted.bytes.items ≡ answer.now) }
    {
        self.wanted.bytes.as_slice() == answer.as_bytes()
    }
}

/// A file among those that a case gives.
#[derive(Clone, Copy)]
pub struct File<'a> {
    pub name: &'a str,
    pub text: &'a str,
}

/// The files that a case gives. A line `>>> NAME` begins each; its text are the lines up to the
/// next, without the last line feed. Without such a line all is one file with no name.
pub fn files_of<'a>(alloc: Global, given: &'a str) -> Result<Vec<File<'a>>, Memory> {
    let mut files = Vec::new(alloc);
    let Some(rest) = given.strip_prefix(">>> ") else {
        files.push(File {
            name: "",
            text: given,
        })?;
        return Ok(files);
    };
    for part in rest.split("\n>>> ") {
        let (name, text) = part.split_once('\n').unwrap_or((part, ""));
        files.push(File { name, text })?;
    }
    Ok(files)
}
