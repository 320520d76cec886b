//! A file that is told: its name, and what it holds.

ghost use Rattle.std.specs.Prelude.{◌≡◌, IfOk};

use mg_text::{Bytes, Memory, Text};
use std::alloc::Global;
use std::marker::Model;

/// A file: its name, and what it holds.
#[derive(Drop)]
pub struct File {
    name: Text,
    content: Bytes,
}

impl Model for File {
    ghost use Rattle.mg_page.specs.Told.{Told};

    ghost Value = { Told };

    ghost view = { λ f. record { name = f.name; content = f.content } };
}

impl File {
    /// The file of this name that holds this.
    pub fn of(alloc: Global, name: &str, content: &[u8]) -> Result<File, Memory>
        ensures { IfOk result (λ f. f ≡ record { name = name.now; content = content.now }) }
    {
        let name = Text::of(alloc, name)?;
        let content = Bytes::of(alloc, content)?;
        Ok(File { name, content })
    }

    /// The file's name.
    pub fn name(&self) -> &str
        ensures { result.now ≡ self.now.name }
    {
        self.name.as_str()
    }

    /// What it holds.
    pub fn content(&self) -> &[u8]
        ensures { result.now ≡ self.now.content }
    {
        self.content.as_slice()
    }
}
