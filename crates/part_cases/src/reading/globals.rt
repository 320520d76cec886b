//! Cases of global protocols: that each is read, or its first fault; and what its roles do, or why
//! one of them has no local protocol.

use cases::{Answer, Answers};
use mg_projected::{ProjectedFault, RoleFile, projected};
use mg_text::Memory;
use scr_global_read::read_global;
use scr_project::ProjectFault;
use scr_read::ScrFault;
use std::alloc::Global;

/// The files of cases, in the order in which they are answered.
pub const FILES: [&str; 2] = ["globals.txt", "projections.txt"];

/// Answers cases by `read_global` and `projected`.
pub struct Projecting;

impl Answers for Projecting {
    fn answer(
        &self,
        alloc: Global,
        answer: &mut Answer,
        file: &str,
        given: &[u8],
    ) -> Result<(), Memory> {
        match file {
            "globals.txt" => judged(alloc, answer, given),
            _ => projections(alloc, answer, given),
        }
        Ok(())
    }
}

// That a protocol is read, or the fault.
fn judged(alloc: Global, answer: &mut Answer, given: &[u8]) {
    match read_global(alloc, 0, given) {
        Ok(_) => answer.add("read"),
        Err(fault) => answer.fault(&fault),
    }
}

// The files of the roles, or the fault.
fn projections(alloc: Global, answer: &mut Answer, given: &[u8]) {
    match projected(alloc, 0, given) {
        Ok(files) => add_files(answer, files.as_slice()),
        Err(fault) => add_fault(answer, &fault),
    }
}

// The name and text of each file.
fn add_files(answer: &mut Answer, files: &[RoleFile]) {
    for file in files {
        answer.line();
        answer.pair(file.name.as_str(), "\n");
        answer.add(without_last_feed(file.text.as_str()));
    }
}

// A text without its last line feed.
fn without_last_feed(text: &str) -> &str {
    text.strip_suffix('\n').unwrap_or(text)
}

fn add_fault(answer: &mut Answer, fault: &ProjectedFault) {
    match fault {
        ProjectedFault::Unread(fault) => answer.fault(fault),
        ProjectedFault::Unprojected(fault) => add_unprojected(answer, fault),
        ProjectedFault::Memory => answer.fail(),
    }
}

// A fault of projecting as `LINE:COLUMN: KIND ROLE`, and the inner fault's kind.
fn add_unprojected(answer: &mut Answer, fault: &ProjectFault) {
    match fault {
        ProjectFault::NotMergeable { place, name } => {
            answer.place(*place);
            answer.pair(": NotMergeable ", name.as_str());
        }
        ProjectFault::Unprojected { place, name, fault } => {
            answer.place(*place);
            answer.pair(": Unprojected ", name.as_str());
            answer.pair(" ", kind(fault));
        }
        ProjectFault::Memory => answer.fail(),
    }
}

// The kind of a fault that a projection may have.
fn kind(fault: &ScrFault) -> &'static str {
    match fault {
        ScrFault::Unmet { condition, .. } => condition.word(),
        _ => "another",
    }
}
