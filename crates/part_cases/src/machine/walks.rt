//! All fronts of the bytes of a class file, and all bytes that differ from them in one place.

use crate::machine::classes::{is_written_back, read};
use crate::machine::unanswered::Unanswered;
use cases::Answer;
use cls_bytes::ClassFault;
use std::alloc::{AllocError, Global};

/// Tells of all fronts of the bytes of Hello, or of all changes of a byte of it, how many there are
/// if all are as wanted.
pub fn tell(
    alloc: Global,
    answer: &mut Answer,
    hello: &[u8],
    given: &str,
) -> Result<(), Unanswered> {
    let count = match given {
        "fronts" => fronts(alloc, hello),
        "changes" => changes(alloc, hello)?,
        _ => return Err(Unanswered::Form),
    };
    match count {
        Some(count) => answer.show(&count),
        None => answer.add("not all are as wanted"),
    }
    Ok(())
}

// How many fronts of the bytes there are, if each is cut in a field.
fn fronts(alloc: Global, bytes: &[u8]) -> Option<u64> {
    let mut fronts = 0u64;
    for count in 0..bytes.len() {
        if !is_cut(alloc, &bytes[..count]) {
            return None;
        }
        fronts = fronts.saturating_add(1);
    }
    Some(fronts)
}

// Whether these bytes end in a field, which starts at most 22 bytes before.
fn is_cut(alloc: Global, front: &[u8]) -> bool {
    match read(alloc, front) {
        Err(ClassFault::Short { offset }) => {
            let offset = offset as usize;
            offset <= front.len() && front.len() - offset < 23
        }
        _ => false,
    }
}

// How many ways there are to put another byte at one place, if each gives bytes that are refused by
// a fault that stands in them, or a class that is written as they are.
fn changes(alloc: Global, bytes: &[u8]) -> Result<Option<u64>, AllocError> {
    let mut changes = 0u64;
    for place in 0..bytes.len() {
        for byte in 0..=255u8 {
            if byte == bytes[place] {
                continue;
            }
            if !is_change_kept(alloc, bytes, place, byte)? {
                return Ok(None);
            }
            changes = changes.saturating_add(1);
        }
    }
    Ok(Some(changes))
}

fn is_change_kept(alloc: Global, bytes: &[u8], place: usize, byte: u8) -> Result<bool, AllocError> {
    let mut changed = Vec::from_slice(alloc, bytes)?;
    match changed.get_mut(place) {
        Some(slot) => *slot = byte,
        None => return Ok(false),
    }
    Ok(is_written_back(alloc, changed.as_slice()))
}
