//! Cases of programs of Java sources and typestates, by public calls: whether they are well typed,
//! their cores, and their usages.
//! What is wanted is read off the sources by hand.

mod codes;
mod cores;
mod judged;
mod program;
mod used;

use crate::programs::program::tell_program;
use cases::{Answer, Answers, CasesFault, tell};
use mg_text::Memory;
use std::alloc::Global;
use std::rt::Files;

/// The files of cases, in the order in which they are answered.
const FILES: [&str; 24] = [
    "typed_unread.txt",
    "typed_declarations.txt",
    "typed_programs.txt",
    "typed_names.txt",
    "typed_values.txt",
    "typed_calls.txt",
    "typed_order.txt",
    "typed_fine.txt",
    "typed_static.txt",
    "typed_results.txt",
    "typed_examples.txt",
    "cores.txt",
    "judged.txt",
    "codes.txt",
    "used_calls.txt",
    "used_values.txt",
    "used_exits.txt",
    "used_conditions.txt",
    "used_loops.txt",
    "used_switches.txt",
    "used_fields.txt",
    "used_left.txt",
    "used_examples.txt",
    "reads.txt",
];

/// What answers cases of programs.
struct Programs;

impl Answers for Programs {
    fn answer(
        &self,
        alloc: Global,
        answer: &mut Answer,
        file: &str,
        given: &[u8],
    ) -> Result<(), Memory> {
        let text = str::from_utf8(given).unwrap_or("no text");
        tell_program(alloc, answer, file, text)
    }
}

/// Tells the cases of programs.
pub(crate) fn tell_all<R: Files + Print + AllocGlobal>(rt: &R) -> Result<(), CasesFault> {
    tell(rt, &Programs, &FILES)
}
