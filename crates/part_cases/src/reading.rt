//! Cases of all that reads, prints, walks, projects and refines the languages: texts, local and
//! global protocols, typestates, walks and APIs, and Java sources.
//! Each file of cases has its kind of answer, and those that are not the wanted ones are printed.

mod bases;
mod globals;
mod java;
mod protocols;
mod refining;
mod typestates;
mod walks;
mod written;

use crate::reading::bases::as_text;
use crate::reading::globals::Projecting;
use crate::reading::java::Java;
use crate::reading::refining::Refining;
use cases::{Answer, Answers, CasesFault, tell};
use mg_text::Memory;
use std::alloc::Global;
use std::rt::Files;

/// The files of cases of texts, local protocols, typestates, walks and APIs, in the order in which
/// they are answered.
const FILES: [&str; 21] = [
    "escapes.txt",
    "texts.txt",
    "lists.txt",
    "places.txt",
    "names.txt",
    "java_words.txt",
    "sets.txt",
    "reserved_words.txt",
    "tokens.txt",
    "protocols.txt",
    "bodies.txt",
    "parts.txt",
    "whole.txt",
    "printed.txt",
    "written.txt",
    "typestates.txt",
    "states.txt",
    "generated.txt",
    "walks.txt",
    "label_calls.txt",
    "apis.txt",
];

/// Answers cases of these files.
struct Reading;

impl Answers for Reading {
    fn answer(
        &self,
        alloc: Global,
        answer: &mut Answer,
        file: &str,
        given: &[u8],
    ) -> Result<(), Memory> {
        let text = as_text(given);
        match file {
            "texts.txt" => bases::kept(alloc, answer, text),
            "lists.txt" => bases::listed(alloc, answer, text),
            "names.txt" => bases::numbered(alloc, answer, text),
            "sets.txt" => bases::joined(alloc, answer, text),
            "walks.txt" => walks::walked(alloc, answer, text),
            "protocols.txt"
            | "bodies.txt"
            | "parts.txt"
            | "whole.txt"
            | "printed.txt"
            | "generated.txt"
            | "label_calls.txt"
            | "apis.txt" => { protocols::tell(alloc, answer, file, given) }
            _ => {
                add_part(alloc, answer, file, given);
                Ok(())
            }
        }
    }
}

// Adds the answer to what a case gives that is no whole file.
fn add_part(alloc: Global, answer: &mut Answer, file: &str, given: &[u8]) {
    match file {
        "escapes.txt" => answer.add(as_text(given)),
        "places.txt" => bases::place(answer, as_text(given)),
        "java_words.txt" => bases::java_word(answer, as_text(given)),
        "reserved_words.txt" => protocols::reserved_word(answer, given),
        "tokens.txt" => protocols::tokens_of(alloc, answer, given),
        "written.txt" => written::written(alloc, answer, given),
        "typestates.txt" | "states.txt" => typestates::tell(alloc, answer, given),
        _ => answer.add("a file of no kind"),
    }
}

/// Tells the cases of all that is read.
pub(crate) fn tell_all<R: Files + Print + AllocGlobal>(rt: &R) -> Result<(), CasesFault> {
    tell(rt, &Reading, &FILES)?;
    tell(rt, &Projecting, &globals::FILES)?;
    tell(rt, &Refining, &refining::FILES)?;
    tell(rt, &Java, &java::FILES)
}
