//! The usages of a program: the report, or the first demand that fails.

use crate::programs::program::without_end;
use cases::{Answer, File};
use jv_core::Core;
use mg_text::{Memory, Text};
use std::alloc::Global;
use use_check::{CheckFault, check, report};
use use_flow::{Demand, Element, contexts, reads, typestate_of};

/// Tells that a program is accepted, with its report, or the line of the demand that fails.
pub(crate) fn tell(alloc: Global, answer: &mut Answer, files: &[File<'_>], core: &Core) {
    match check(alloc, core) {
        Ok(accepted) => tell_report(answer, report(alloc, core, &accepted)),
        Err(fault) => tell_fault(answer, files, core, &fault),
    }
}

fn tell_report(answer: &mut Answer, report: Result<Text, Memory>) {
    let Ok(report) = report else {
        return answer.fail();
    };
    let lines = report.as_str();
    answer.add("accepted");
    if !lines.is_empty() {
        answer.pair("\n", without_end(lines));
    }
}

// Tells a fault as a line: the place, the kind, the slot and the element.
fn tell_fault(answer: &mut Answer, files: &[File<'_>], core: &Core, fault: &CheckFault) {
    let Some((kind, demand)) = parts(fault) else {
        return answer.fail();
    };
    answer.pair(name_of(files, demand.place.file), ":");
    answer.place(demand.place);
    answer.pair(": ", kind);
    answer.pair(" ", demand.slot.as_str());
    answer.pair(" ", element_name(core, demand.class, demand.element));
}

// The name of the file of this number.
fn name_of<'a>(files: &[File<'a>], file: u32) -> &'a str {
    match files.get(file as usize) {
        Some(file) => file.name,
        None => "?",
    }
}

// The kind of a fault, and its demand. Want of memory has none.
fn parts(fault: &CheckFault) -> Option<(&str, &Demand)> {
    Some(match fault {
        CheckFault::UseMoved(demand) => ("UseMoved", demand),
        CheckFault::MaybeNull(demand) => ("MaybeNull", demand),
        CheckFault::NotOffered(demand) => ("NotOffered", demand),
        CheckFault::LeftOpen(demand) => ("LeftOpen", demand),
        CheckFault::Overwritten(demand) => ("Overwritten", demand),
        CheckFault::FieldOpenAtEnd(demand) => ("FieldOpenAtEnd", demand),
        CheckFault::Memory => return None,
    })
}

// The name of an element.
fn element_name(core: &Core, class: u32, element: Element) -> &str {
    match element {
        Element::Null => "null",
        Element::Moved => "moved",
        Element::End => "end",
        Element::State(state) => state_name(core, class, state),
    }
}

// The name of the state of this number in the typestate of a class.
fn state_name(core: &Core, class: u32, state: u32) -> &str {
    let found = typestate_of(core, class).and_then(|t| t.states.as_slice().get(state as usize));
    found.map_or("?", |s| s.name.as_str())
}

/// Tells a line for each context: how many keys it reads.
pub(crate) fn tell_reads(alloc: Global, answer: &mut Answer, core: &Core) -> Result<(), Memory> {
    for context in contexts(alloc, core)?.as_slice() {
        let keys = reads(alloc, core, *context)?;
        answer.line();
        answer.show(&keys.len());
    }
    Ok(())
}
