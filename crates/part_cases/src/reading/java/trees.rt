//! What is asked of the tree of a file.

use crate::reading::java::printed;
use cases::Answer;
use jv_print::print_file;
use jv_tree::File;
use mg_text::Memory;
use std::alloc::Global;

/// What is asked of the tree of a file, by the file where the case stands: its layout, or that its text
/// is read and printed as it is. Of most it is enough that they are read.
pub(crate) fn tell(
    alloc: Global,
    answer: &mut Answer,
    asked: &str,
    file: &File,
) -> Result<(), Memory> {
    match asked {
        "java_trees.txt" | "sources.txt" => answer.made(print_file(alloc, file)),
        "printed_again.txt" => printed::again(alloc, answer, file)?,
        _ => answer.add("read"),
    }
    Ok(())
}
