//! Cases of Java sources, by public calls: their tokens, their trees, the faults of those that are
//! refused, and their one layout; and the files of workloads, which are in their layouts.
//! What is wanted is read off the sources by hand.

mod faults;
mod printed;
mod sources;
mod spelled;
mod tokens;
mod trees;
mod workloads;

use cases::{Answer, Answers};
use mg_text::Memory;
use std::alloc::Global;

/// The files of cases, in the order in which they are answered.
pub const FILES: [&str; 10] = [
    "java_tokens.txt",
    "long_texts.txt",
    "java_trees.txt",
    "depths.txt",
    "sources.txt",
    "java_faults.txt",
    "java_layouts.txt",
    "printed_again.txt",
    "workloads.txt",
    "workload_texts.txt",
];

/// What answers each file of cases.
pub struct Java;

impl Answers for Java {
    fn answer(
        &self,
        alloc: Global,
        answer: &mut Answer,
        file: &str,
        given: &[u8],
    ) -> Result<(), Memory> {
        match file {
            "java_tokens.txt" | "long_texts.txt" => {
                tokens::tell(alloc, answer, file, given);
                Ok(())
            }
            "java_layouts.txt" => {
                printed::layout(alloc, answer, given);
                Ok(())
            }
            "java_trees.txt" | "depths.txt" => spelled::tell(alloc, answer, file, given),
            "workloads.txt" => workloads::laid_out(alloc, answer, given),
            "workload_texts.txt" => workloads::text(alloc, answer, given),
            _ => sources::tell(alloc, answer, file, given),
        }
    }
}
