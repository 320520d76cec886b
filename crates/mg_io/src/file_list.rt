//! Files in memory, by their names.

ghost use Rattle.std.specs.Prelude.{◌≡◌, option_map, OnOk, OnErr};
ghost use Rattle.std.specs.FinMap as map;

use mg_text::{Bytes, Memory};
use std::alloc::Global;
use std::collections::BTreeMap;
use std::marker::Model;

/// Files in memory: bytes by their names, each name once.
#[derive(Drop)]
pub struct FileList {
    files: BTreeMap<String, Bytes>,
}

impl Model for FileList {
    ghost use Rattle.mg_io.specs.Outside.{Files};
    ghost use Rattle.mg_io.specs.Fakes.{files_code, files_of};

    ghost Value = { Files };

    ghost coded = { files_code };

    ghost view = { λ l. files_of l.files.entries };
}

impl FileList {
    /// No files. Nothing is allocated before the first is added.
    pub fn new(alloc: Global) -> FileList
        ensures { result ≡ map.empty }
    {
        FileList {
            files: BTreeMap::new(alloc),
        }
    }

    /// Makes the named file hold this content, whether or not it was there. After an error the
    /// files are as before.
    pub fn add(&mut self, alloc: Global, name: &str, content: &[u8]) -> Result<(), Memory>
        ensures ok { OnOk result (self.new ≡ map.insert self.old name.now content.now) }
        ensures err { OnErr result (self.new ≡ self.old) }
    {
        let name = String::from_str(alloc, name)?;
        let content = Bytes::of(alloc, content)?;
        self.files.insert(name, content)?;
        Ok(())
    }

    /// What the named file holds, where there is one.
    pub fn content(&self, name: &str) -> Option<&[u8]>
        ensures { option_map (λ bytes. bytes.now) result ≡ map.get self.now name.now }
    {
        match self.files.get(name) {
            Some(bytes) => Some(bytes.as_slice()),
            None => None,
        }
    }
}
