//! Reads the files of a command.

ghost use Rattle.std.specs.Prelude.{};
ghost use Rattle.mg_delivery.specs.Outside.{Stream, outside};
ghost use Rattle.mg_delivery.specs.Contents.{AreContents};

use mg_io::{Folder, IoFault};
use mg_text::{Bytes, List, Memory, Text};
use std::alloc::Global;

/// Why the files couldn't be read.
pub enum Unread<'a> {
    /// This one couldn't.
    Failed(&'a Text),
    /// Want of memory.
    Memory,
}

impl From<Memory> for Unread<'_> {
    ghost use Rattle.std.specs.Prelude.{◌≡◌};
    ghost use Rattle.mg_delivery.specs.declared.reading.Unread.TheVariants as E;

    ghost from_gives = { λ _ e. e ≡ E.Memory };

    fn from(_memory: Memory) -> Self {
        Unread::Memory
    }
}

/// Reads all files in their order, of each at most so many bytes, up to the first that can't be
/// read.
pub fn read_all<'a, F: Folder>(
    alloc: Global,
    names: &'a [Text],
    limit: usize,
    folder: &mut F,
) -> Result<List<Bytes>, Unread<'a>>
    ensures { (o e : Stream) → AreContents limit names.now
        (outside (F.files folder.old) (F.failed_reads folder.old) (F.failed_writes folder.old) o e)
        result
        (outside (F.files folder.new) (F.failed_reads folder.new) (F.failed_writes folder.new) o e) }
{
    let mut contents = List::new(alloc);
    for name in names {
        match folder.read(alloc, name.as_str(), limit) {
            Ok(bytes) => contents.push(bytes)?,
            Err(IoFault::Failed) => return Err(Unread::Failed(name)),
            Err(IoFault::Memory) => return Err(Unread::Memory),
        }
    }
    Ok(contents)
}
