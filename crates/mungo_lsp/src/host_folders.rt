//! The host's folders.

use lsp_folder::{File, is_part};
use lsp_names::{Named, beside, path_of};
use lsp_serving::Folders;
use mg_io::{Folder, HostFolder, IoFault};
use mg_text::{Memory, Text};
use std::alloc::Global;
use std::fs::{self, DirEntry, ReadDir};
use std::io::{self, ErrorKind};
use std::rt::Files;

/// How much is read of a file: a byte more than a source may have.
const FILE_LIMIT: usize = 0x10_0001;

/// The host's folders, under the names that the system knows them by. They aren't known beforehand.
#[derive(Drop)]
pub struct HostFolders<'a, R: Files + AllocGlobal + Clone + Drop> {
    rt: &'a R,
}

impl<'a, R: Files + AllocGlobal + Clone + Drop> HostFolders<'a, R> {
    /// The folders of this runtime.
    pub fn new(rt: &'a R) -> HostFolders<'a, R> {
        HostFolders { rt }
    }
}

impl<'a, R: Files + AllocGlobal + Clone + Drop> Folders for HostFolders<'a, R> {
    ghost use Rattle.std.specs.Prelude.{None};

    ghost known = { λ _ _. None };

    fn files_of(&mut self, alloc: Global, document: &str) -> Result<Vec<File>, Memory> {
        match path_of(alloc, document)? {
            Named::Path(path) => files_beside(alloc, self.rt, document, path.as_str()),
            _ => Ok(Vec::new(alloc)),
        }
    }
}

// A name up to its last slash, and with it.
fn folder_of(name: &str) -> &str {
    match name.rsplit_once('/') {
        Some((folder, _)) => &name[..folder.len() + 1],
        None => "",
    }
}

// The sources in the folder of a file, under names in the folder of its document. A folder that can't be listed has none.
fn files_beside<R: Files + AllocGlobal + Clone + Drop>(
    alloc: Global,
    rt: &R,
    document: &str,
    path: &str,
) -> Result<Vec<File>, Memory> {
    let mut files = Vec::new(alloc);
    let entries = match fs::read_dir(rt, folder_of(path)) {
        Ok(entries) => entries,
        Err(error) if error.kind() == ErrorKind::OutOfMemory => return Err(Memory),
        Err(_) => return Ok(files),
    };
    for entry in entries {
        if let Some(file) = file_of(alloc, rt, document, entry)? {
            files.push(file)?;
        }
    }
    Ok(files)
}

// A source that a folder has. None where it is none or can't be read.
fn file_of<R: Files + AllocGlobal + Clone + Drop>(
    alloc: Global,
    rt: &R,
    document: &str,
    entry: io::Result<DirEntry<R, Global>>,
) -> Result<Option<File>, Memory> {
    let Ok(entry) = entry else {
        return Ok(None);
    };
    let name = beside(alloc, folder_of(document), entry.file_name())?;
    if !is_part(document, name.as_str()) {
        return Ok(None);
    }
    let mut folder = HostFolder::new(alloc, rt);
    match folder.read(alloc, entry.path().as_str(), FILE_LIMIT) {
        Ok(contents) => Ok(Some(File { name, contents })),
        Err(IoFault::Failed) => Ok(None),
        Err(IoFault::Memory) => Err(Memory),
    }
}
