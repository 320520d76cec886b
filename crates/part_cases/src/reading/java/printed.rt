//! Sources that are read, printed and read again.

use crate::reading::java::faults;
use cases::Answer;
use jv_print::print_file;
use jv_read::read_java;
use jv_tree::File;
use mg_text::Memory;
use std::alloc::Global;

/// The text of the file that a source spells, or its fault.
pub(crate) fn layout(alloc: Global, answer: &mut Answer, source: &[u8]) {
    match read_java(alloc, 0, source) {
        Ok(file) => answer.made(print_file(alloc, &file)),
        Err(fault) => faults::add_line(answer, &fault),
    }
}

/// That the text of a file is read and printed as it is, or what is found in its place.
pub(crate) fn again(alloc: Global, answer: &mut Answer, file: &File) -> Result<(), Memory> {
    let text = print_file(alloc, file)?;
    let text = text.as_str();
    let mut again = Answer::new(alloc);
    layout(alloc, &mut again, text.as_bytes());
    let again = again.into_text()?;
    let again = again.as_str();
    answer.add(if again == text { "alike" } else { again });
    Ok(())
}
