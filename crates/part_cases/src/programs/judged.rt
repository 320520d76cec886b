//! The type conditions of Java files, by the call that judges them all.

use cases::{Answer, File};
use jv_read::{JavaFault, read_java};
use jv_tree::File as Tree;
use jv_types::judge;
use mg_text::List;
use std::alloc::Global;

/// Tells that the files are well typed, or the first fault of their types; the fault of a file that
/// can't be read.
pub(crate) fn tell(alloc: Global, answer: &mut Answer, files: &[File<'_>]) {
    match trees_of(alloc, files) {
        Ok(trees) => tell_judged(alloc, answer, trees.as_slice()),
        Err(fault) => answer.fault(&fault),
    }
}

fn tell_judged(alloc: Global, answer: &mut Answer, trees: &[Tree]) {
    match judge(alloc, trees, &[], &[]) {
        Ok(()) => answer.add("fine"),
        Err(fault) => answer.fault(&fault),
    }
}

// The trees of the files, which are numbered in their order.
fn trees_of(alloc: Global, files: &[File<'_>]) -> Result<List<Tree>, JavaFault> {
    let mut trees = List::new(alloc);
    let mut number: u32 = 0;
    for file in files {
        add_tree(alloc, &mut trees, number, file.text.as_bytes())?;
        number = number.saturating_add(1);
    }
    Ok(trees)
}

fn add_tree(
    alloc: Global,
    trees: &mut List<Tree>,
    number: u32,
    bytes: &[u8],
) -> Result<(), JavaFault> {
    let tree = read_java(alloc, number, bytes)?;
    match trees.push(tree) {
        Ok(()) => Ok(()),
        Err(_) => Err(JavaFault::Memory),
    }
}
