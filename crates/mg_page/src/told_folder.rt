//! A folder of files that are told. No write fails there, and a read only where no file has the name.

ghost use Rattle.std.specs.Prelude.{◌≡◌, ◌∷◌, ◌++◌, [], take, IfOk, OnOk, OnErr};
ghost use Rattle.mg_page.specs.Told.{files_in};

use crate::file::File;
use mg_io::{FileList, Folder, IoFault};
use mg_text::{Bytes, List, Memory, Text};
use std::alloc::Global;
use std::marker::Model;

/// A folder of files that are told: all that were put into it, in their order, of which the later of two of one name
/// counts. The index has what stands under each name, so that a read needn't look through all.
#[derive(Drop)]
pub(crate) struct ToldFolder {
    index: FileList,
    listed: List<File>,
    unread: List<Text>,
}

impl Model for ToldFolder {
    ghost use Rattle.std.specs.Prelude.{◌≡◌};
    ghost use Rattle.mg_page.specs.Told.{ToldFiles, files_in};

    ghost Value = { ToldFiles };

    ghost view = { λ f. record { listed = f.listed.items; unread = f.unread.items } };

    ghost invariant = { λ f. f.index ≡ files_in f.listed.items };
}

impl ToldFolder {
    /// The folder of these files.
    pub(crate) fn of(alloc: Global, files: List<File>) -> Result<ToldFolder, Memory>
        ensures { IfOk result (λ f. f ≡ record { listed = files.items; unread = [] }) }
    {
        let index = index_of(alloc, files.as_slice())?;
        Ok(ToldFolder {
            index,
            listed: files,
            unread: List::new(alloc),
        })
    }

    /// All files that were put into it, in their order.
    pub(crate) fn into_files(self) -> List<File>
        ensures { result.items ≡ self.listed }
    {
        let ToldFolder {
            index: _,
            listed,
            unread: _,
        } = self;
        listed
    }

    // Puts a file among the others. After an error all is as before.
    fn put(&mut self, alloc: Global, name: &str, content: &[u8]) -> Result<(), Memory>
        ensures ok { OnOk result (self.new ≡ record self.old { listed = self.old.listed ++ record { name = name.now; content = content.now } ∷ [] }) }
        ensures err { OnErr result (self.new ≡ self.old) }
    {
        let file = File::of(alloc, name, content)?;
        self.listed.reserve(1)?;
        self.index.add(alloc, name, content)?;
        self.listed.add(file);
        Ok(())
    }
}

// What stands under each name.
fn index_of(alloc: Global, files: &[File]) -> Result<FileList, Memory>
    ensures { IfOk result (λ l. l ≡ files_in files.now) }
{
    let mut index = FileList::new(alloc);
    for file in files {
        index.add(alloc, file.name(), file.content())?;
    }
    Ok(index)
}

impl Folder for ToldFolder {
    ghost use Rattle.std.specs.Prelude.{Some, []};
    ghost use Rattle.mg_page.specs.Told.{files_in};

    ghost files = { λ f. Some (files_in f.listed) };

    ghost failed_reads = { λ f. f.unread };

    ghost failed_writes = { λ f. [] };

    /// Fails where no file has the name.
    fn read(&mut self, alloc: Global, name: &str, limit: usize) -> Result<Bytes, IoFault> {
        if let Some(content) = self.index.content(name) {
            return Ok(Bytes::of(alloc, front(content, limit))?);
        }
        self.unread.push(Text::of(alloc, name)?)?;
        Err(IoFault::Failed)
    }

    /// Fails by want of memory alone.
    fn write(&mut self, alloc: Global, name: &str, bytes: &[u8]) -> Result<(), IoFault> {
        self.put(alloc, name, bytes)?;
        Ok(())
    }
}

// The first `limit` bytes, or all of them where there are fewer.
fn front(bytes: &[u8], limit: usize) -> &[u8]
    ensures { result.now ≡ take limit bytes.now }
{
    &bytes[..bytes.len().min(limit)]
}
