//! The diagram of a document.

ghost use Rattle.std.specs.Prelude.{◌≡◌, Some, IfOk, option_map};
ghost use Rattle.mg_sources.specs.Files.{Kind, IsOf, source_of};
ghost use Rattle.mg_sources.specs.Parts.{part_of};
ghost use Rattle.lsp_drawing.specs.Diagrams.{diagram};
ghost use Rattle.lsp_drawing.specs.Drawings.{shown_of, IsDrawing};

use crate::arrows::diagram;
use mg_refusal::Stop;
use mg_sources::{Part, read_part};
use mg_text::{Memory, Text};
use std::alloc::Global;
use stm_gen::generate;
use ts_tree::Typestate;

// The diagram of a typestate.
fn drawn(alloc: Global, typestate: &Typestate) -> Result<Option<Text>, Memory>
    ensures { IfOk result (λ d. d ≡ Some (diagram typestate.now)) }
{
    let text = diagram(alloc, typestate)?;
    Ok(Some(text))
}

// The diagram of what a file spells.
fn drawn_of(alloc: Global, part: &Part) -> Result<Option<Text>, Memory>
    ensures { IfOk result (λ d. d ≡ option_map diagram (shown_of (part_of part.now))) }
{
    match part {
        Part::States(typestate) => drawn(alloc, typestate),
        Part::Protocol(local) => {
            let typestate = generate(alloc, local)?;
            drawn(alloc, &typestate)
        }
        Part::Classes(_) => Ok(None),
    }
}

/// The diagram of a document: of a typestate, or of the typestate that a local protocol is translated
/// to. There is none of classes, nor of a document that its reader refuses. Its name tells by which
/// reader it is read.
///
/// # Errors
/// `Memory` only.
pub fn drawing(alloc: Global, document: &Text, bytes: &[u8]) -> Result<Option<Text>, Memory>
    requires { (kind : Kind) × IsOf kind (source_of 0 document.now bytes.now) }
    ensures { IfOk result (IsDrawing (source_of 0 document.now bytes.now)) }
{
    match read_part(alloc, 0, document, bytes) {
        Ok(part) => drawn_of(alloc, &part),
        Err(Stop::Refused(_refusal)) => Ok(None),
        Err(Stop::Memory) => Err(Memory),
    }
}
