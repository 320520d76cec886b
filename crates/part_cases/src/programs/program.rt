//! From the files of a case to their core, and what is asked of it.

use crate::programs::{codes, cores, judged, used};
use crate::sources::sources_of;
use cases::{Answer, File, files_of};
use jv_core::Core;
use mg_accepted::resolve_program;
use mg_delivery::lines::refused;
use mg_refusal::{Refusal, Stop};
use mg_text::Memory;
use std::alloc::Global;

/// Tells what is asked of the files of a case, by the file where the case stands: the line of what
/// refuses them, or what is asked of their core.
pub(crate) fn tell_program(
    alloc: Global,
    answer: &mut Answer,
    asked: &str,
    text: &str,
) -> Result<(), Memory> {
    let files = files_of(alloc, text)?;
    let files = files.as_slice();
    if asked == "judged.txt" {
        judged::tell(alloc, answer, files);
        return Ok(());
    }
    match core_of(alloc, files) {
        Ok(core) => tell_core(alloc, answer, asked, files, &core),
        Err(Stop::Refused(refusal)) => tell_refusal(alloc, answer, files, &refusal),
        Err(Stop::Memory) => Err(Memory),
    }
}

// Tells what is asked of a core. Of programs that are only judged it is enough that they have one.
fn tell_core(
    alloc: Global,
    answer: &mut Answer,
    asked: &str,
    files: &[File<'_>],
    core: &Core,
) -> Result<(), Memory> {
    match asked {
        "reads.txt" => used::tell_reads(alloc, answer, core),
        _ => {
            tell_whole(alloc, answer, asked, files, core);
            Ok(())
        }
    }
}

// Tells what is asked of a whole core.
fn tell_whole(alloc: Global, answer: &mut Answer, asked: &str, files: &[File<'_>], core: &Core) {
    match asked {
        "cores.txt" => cores::tell(answer, core),
        "codes.txt" => codes::tell_last(alloc, answer, core),
        _ if asked.starts_with("used_") => used::tell(alloc, answer, files, core),
        _ => answer.add("fine"),
    }
}

// Tells the line of what refuses files.
fn tell_refusal(
    alloc: Global,
    answer: &mut Answer,
    files: &[File<'_>],
    refusal: &Refusal,
) -> Result<(), Memory> {
    let sources = sources_of(alloc, files)?;
    let line = refused(alloc, sources.names.as_slice(), refusal)?;
    answer.add(without_end(line.as_str()));
    Ok(())
}

/// A text that ends with a line feed, without that.
pub(crate) fn without_end(text: &str) -> &str {
    text.strip_suffix('\n').unwrap_or("no line feed at the end")
}

// The core of the files whose names tell of which kind they are.
fn core_of(alloc: Global, files: &[File<'_>]) -> Result<Core, Stop> {
    let sources = sources_of(alloc, files)?;
    resolve_program(alloc, sources.names.as_slice(), sources.contents.as_slice())
}
