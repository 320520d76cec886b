//! The sources among the files of a case.

ghost use Rattle.std.specs.Prelude.{◌≡◌, IfOk, IsTrue, length};
ghost use Rattle.mg_sources.specs.Files.{EndsWith, HaveKinds, Kind, suffix_of};

use cases::File;
use mg_text::{Bytes, List, Memory, Text};
use std::alloc::Global;

/// Sources by their names, and their contents in the same order.
#[derive(Drop)]
pub(crate) struct Sources {
    pub names: List<Text>,
    pub contents: List<Bytes>,
}

/// The files whose names tell of which kind they are.
pub(crate) fn sources_of(alloc: Global, files: &[File<'_>]) -> Result<Sources, Memory>
    ensures same { IfOk result (λ s. length s.names.items ≡ length s.contents.items) }
    ensures kinds { IfOk result (λ s. HaveKinds s.names.items) }
{
    let mut names = List::new(alloc);
    let mut contents = List::new(alloc);
    for file in files {
        if !has_kind(file.name) {
            continue;
        }
        names.push(Text::of(alloc, file.name)?)?;
        contents.push(Bytes::of(alloc, file.text.as_bytes())?)?;
    }
    Ok(Sources { names, contents })
}

// Whether the name of a file tells of which kind it is.
fn has_kind(name: &str) -> bool
    ensures { IsTrue result → (kind : Kind) × EndsWith (suffix_of kind) name.now }
{
    let name = name.as_bytes();
    if name.ends_with(b".scr") {
        return true;
    }
    if name.ends_with(b".protocol") {
        return true;
    }
    name.ends_with(b".java")
}
