//! The files of workloads, and that each is laid out as what it spells.

use crate::reading::bases::as_text;
use crate::reading::java::printed;
use crate::reading::protocols;
use cases::Answer;
use mg_load::{MOST, Workload, load_files};
use mg_text::Memory;
use std::alloc::Global;

/// Of a workload as `400 7`, with how many branches it has and the number that picks their order: a
/// line for each file, whether reading and printing it gives its bytes.
pub(crate) fn laid_out(alloc: Global, answer: &mut Answer, given: &[u8]) -> Result<(), Memory> {
    match workload_of(alloc, as_text(given))? {
        Some(workload) => add_lines(alloc, answer, &workload),
        None => {
            answer.add("no workload");
            Ok(())
        }
    }
}

fn add_lines(alloc: Global, answer: &mut Answer, workload: &Workload) -> Result<(), Memory> {
    let names = workload.names.as_slice();
    for (name, bytes) in names.iter().zip(workload.contents.as_slice()) {
        add_line(alloc, answer, name.as_str(), bytes.as_slice())?;
    }
    Ok(())
}

fn add_line(alloc: Global, answer: &mut Answer, name: &str, bytes: &[u8]) -> Result<(), Memory> {
    let again = printed_again(alloc, name, bytes)?;
    answer.line();
    answer.add(name);
    if again.as_bytes() == bytes {
        answer.add(" is laid out");
    } else {
        answer.pair(" is not:\n", again.as_str());
    }
    Ok(())
}

/// The text of a file of a workload, as `AMain.java of 400 7`.
pub(crate) fn text(alloc: Global, answer: &mut Answer, given: &[u8]) -> Result<(), Memory> {
    let (wanted, numbers) = as_text(given).split_once(" of ").unwrap_or(("", ""));
    match workload_of(alloc, numbers)? {
        Some(workload) => answer.add(text_in(&workload, wanted)),
        None => answer.add("no workload"),
    }
    Ok(())
}

// The text of the file of this name.
fn text_in<'a>(workload: &'a Workload, wanted: &str) -> &'a str {
    let names = workload.names.as_slice();
    for (name, bytes) in names.iter().zip(workload.contents.as_slice()) {
        if name.as_str() == wanted {
            return as_text(bytes.as_slice());
        }
    }
    "no file"
}

// The workload of these numbers, where there is one.
fn workload_of(alloc: Global, numbers: &str) -> Result<Option<Workload>, Memory> {
    let (branches, seed) = numbers.split_once(' ').unwrap_or(("", ""));
    let branches = branches.parse::<u32>().unwrap_or(0);
    if branches == 0 || MOST < branches {
        return Ok(None);
    }
    match seed.parse::<u64>() {
        Ok(seed) => Ok(Some(load_files(alloc, branches, seed)?)),
        Err(_) => Ok(None),
    }
}

// The text of what a file of this name spells, or its fault.
fn printed_again(alloc: Global, name: &str, bytes: &[u8]) -> Result<String, Memory> {
    let mut again = Answer::new(alloc);
    if name.ends_with(".java") {
        printed::layout(alloc, &mut again, bytes);
    } else {
        protocols::tell(alloc, &mut again, "printed.txt", bytes)?;
    }
    again.into_text()
}
