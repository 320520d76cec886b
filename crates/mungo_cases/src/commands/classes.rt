//! The class files that a case is about: those that an earlier command wrote, and changes of their
//! bytes.

use crate::commands::given::line_of;
use crate::commands::world::World;
use mg_io::{FileList, MemFolder};
use mg_text::Memory;
use std::alloc::Global;

/// The files in which the command of a case runs: these, or where a command runs before it, those
/// of its words that the earlier command left; changed where the case says so.
pub fn files_for(alloc: Global, head: &str, kept: FileList) -> Result<FileList, Memory> {
    let first = line_of(head, "first ");
    let mut files = if first.is_empty() {
        kept
    } else {
        left_by(alloc, first, head, kept)?
    };
    change(alloc, head, &mut files)?;
    Ok(files)
}

// The files of the words of a case's command that an earlier command left.
fn left_by(alloc: Global, first: &str, head: &str, kept: FileList) -> Result<FileList, Memory> {
    let mut world = World::of(alloc, kept)?;
    let _status = world.run(alloc, first)?;
    files_in(alloc, &world.folder, line_of(head, "mungo "))
}

/// The files of these names that a folder has.
pub fn files_in(alloc: Global, folder: &MemFolder, names: &str) -> Result<FileList, Memory> {
    let mut files = FileList::new(alloc);
    for name in names.split(' ') {
        if let Some(bytes) = folder.content(name) {
            files.add(alloc, name, bytes)?;
        }
    }
    Ok(files)
}

// Makes the changes that a case asks for.
fn change(alloc: Global, head: &str, files: &mut FileList) -> Result<(), Memory> {
    fill(alloc, line_of(head, "fills "), files)?;
    cut(alloc, line_of(head, "cuts "), files)?;
    set(alloc, line_of(head, "sets "), files)?;
    grow(alloc, line_of(head, "grows "), files)
}

// A number behind a blank.
fn number(text: &str) -> usize {
    text.parse::<usize>().unwrap_or(0)
}

// `NAME N`: a file of N bytes that are 0.
fn fill(alloc: Global, line: &str, files: &mut FileList) -> Result<(), Memory> {
    let Some((name, count)) = line.split_once(' ') else {
        return Ok(());
    };
    let bytes = vec![in alloc; 0; number(count)]?;
    files.add(alloc, name, bytes.as_slice())
}

// `NAME N`: the first N bytes of a file alone.
fn cut(alloc: Global, line: &str, files: &mut FileList) -> Result<(), Memory> {
    let Some((name, count)) = line.split_once(' ') else {
        return Ok(());
    };
    let bytes = copy_of(alloc, files, name)?;
    let Some((front, _)) = bytes.as_slice().split_at_checked(number(count)) else {
        return Ok(());
    };
    files.add(alloc, name, front)
}

// `NAME N B ..`: the bytes from N on of a file are these.
fn set(alloc: Global, line: &str, files: &mut FileList) -> Result<(), Memory> {
    let Some((name, rest)) = line.split_once(' ') else {
        return Ok(());
    };
    let (place, written) = rest.split_once(' ').unwrap_or((rest, ""));
    let mut place = number(place);
    let mut bytes = copy_of(alloc, files, name)?;
    for byte in written.split(' ') {
        if place < bytes.len() {
            bytes[place] = byte.parse::<u8>().unwrap_or(0);
            place += 1;
        }
    }
    files.add(alloc, name, bytes.as_slice())
}

// `NAME B`: a file has one byte more.
fn grow(alloc: Global, line: &str, files: &mut FileList) -> Result<(), Memory> {
    let Some((name, byte)) = line.split_once(' ') else {
        return Ok(());
    };
    let mut bytes = copy_of(alloc, files, name)?;
    bytes.push(byte.parse::<u8>().unwrap_or(0))?;
    files.add(alloc, name, bytes.as_slice())
}

// The bytes of a file.
fn copy_of(alloc: Global, files: &FileList, name: &str) -> Result<Vec<u8>, Memory> {
    match files.content(name) {
        Some(bytes) => Ok(Vec::from_slice(alloc, bytes)?),
        None => Ok(Vec::new(alloc)),
    }
}
