//! Class files that are cut and changed everywhere: `exec` refuses each front of one as cut, and ends
//! on each change with a status that it may have.

use crate::commands::classes::files_in;
use crate::commands::world::World;
use cases::Answer;
use mg_io::MemFolder;
use mg_text::Memory;
use mg_top::Status;
use std::alloc::Global;

/// Tells whether the command refuses each front of a file of the folder as cut.
pub fn each_front(
    alloc: Global,
    answer: &mut Answer,
    line: &str,
    folder: &MemFolder,
    name: &str,
) -> Result<(), Memory> {
    let bytes = folder.content(name).unwrap_or(b"");
    let mut others: u64 = 0;
    for count in 0..bytes.len() {
        if !is_cut(alloc, line, folder, name, &bytes[..count])? {
            others = others.saturating_add(1);
        }
    }
    let all = bytes.len();
    write!(answer, "{others} of {all} fronts are not refused as cut");
    Ok(())
}

/// Tells whether the command ends as it may where a bit of a file of the folder is another, for each
/// bit.
pub fn each_bit(
    alloc: Global,
    answer: &mut Answer,
    line: &str,
    folder: &MemFolder,
    name: &str,
) -> Result<(), Memory> {
    let bytes = folder.content(name).unwrap_or(b"");
    let mut changed = Vec::from_slice(alloc, bytes)?;
    let mut others: u64 = 0;
    for place in 0..changed.len() {
        for mask in [1_u8, 2, 4, 8, 16, 32, 64, 128] {
            flip(&mut changed, place, mask);
            let proper = is_proper(alloc, line, folder, name, changed.as_slice())?;
            flip(&mut changed, place, mask);
            if !proper {
                others = others.saturating_add(1);
            }
        }
    }
    write!(answer, "{others} changes of a bit end otherwise");
    Ok(())
}

// Turns these bits of a byte.
fn flip(bytes: &mut Vec<u8>, place: usize, mask: u8) {
    if place < bytes.len() {
        bytes[place] ^= mask;
    }
}

// Whether the command refuses as cut the file of this name where it has these bytes.
fn is_cut(
    alloc: Global,
    line: &str,
    folder: &MemFolder,
    name: &str,
    bytes: &[u8],
) -> Result<bool, Memory> {
    let mut world = world_with(alloc, line, folder, name, bytes)?;
    let status = world.run(alloc, line)?;
    let said = str::from_utf8(world.err.bytes()).unwrap_or("");
    Ok(status == Status::Refused && said.ends_with(": Short\n"))
}

// Whether the command ends as it may where the file of this name has these bytes.
fn is_proper(
    alloc: Global,
    line: &str,
    folder: &MemFolder,
    name: &str,
    bytes: &[u8],
) -> Result<bool, Memory> {
    let mut world = world_with(alloc, line, folder, name, bytes)?;
    let status = world.run(alloc, line)?;
    Ok(may_end(status))
}

// Whether `exec` may end so where nothing outside fails.
fn may_end(status: Status) -> bool {
    match status {
        Status::Done
        | Status::Refused
        | Status::Zero
        | Status::Mismatch
        | Status::Waits
        | Status::Bound
        | Status::Broken => true,
        Status::Words | Status::ReadFault | Status::WriteFault | Status::Memory => false,
    }
}

// A world with the files of the command's words, of which one has these bytes.
fn world_with(
    alloc: Global,
    line: &str,
    folder: &MemFolder,
    name: &str,
    bytes: &[u8],
) -> Result<World, Memory> {
    let mut files = files_in(alloc, folder, line)?;
    files.add(alloc, name, bytes)?;
    World::of(alloc, files)
}
