//! What is read of the bytes of a source.

use crate::reading::java::{faults, trees};
use cases::Answer;
use jv_read::read_java;
use mg_text::Memory;
use std::alloc::Global;

// The number of the file in places.
const FILE: u32 = 3;

/// What is asked of the tree of a source, or its fault.
pub(crate) fn tell(
    alloc: Global,
    answer: &mut Answer,
    asked: &str,
    source: &[u8],
) -> Result<(), Memory> {
    match read_java(alloc, FILE, source) {
        Ok(file) => trees::tell(alloc, answer, asked, &file),
        Err(fault) => {
            faults::add_line(answer, &fault);
            Ok(())
        }
    }
}
