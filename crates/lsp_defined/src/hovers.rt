//! What is shown over a word of a protocol or of a typestate.

ghost use Rattle.std.specs.Prelude.{◌≡◌, ◌<◌, ◌^◌, ℕ, List, IfOk, Some, length};
ghost use Rattle.scr_tree.specs.Local.{tree_of};
ghost use Rattle.stm_gen.specs.Numbered.{typestate_of};
ghost use Rattle.ts_parse.specs.Written.{WFile};
ghost use Rattle.ts_read.specs.Outcome.{Spells};
ghost use Rattle.mg_sources.specs.Files.{Kind, IsOf, HaveKinds, source_of, sources};
ghost use Rattle.mg_sources.specs.Parts.{part_of};
ghost use Rattle.lsp_defined.specs.Files.{IsPartOf};
ghost use Rattle.lsp_defined.specs.Spots.{message_spots};
ghost use Rattle.lsp_defined.specs.Shown.{IsSaidAt};
ghost use Rattle.lsp_defined.specs.Hovers.{IsOfStates, IsHoverOf, IsSpelledHover, IsHoverIn, IsHoverOver};
ghost use Rattle.lsp_defined.specs.inner.Filed.{source_in};

use crate::files::{SourceFile, file_at, part_in};
use crate::messages::message_spots;
use crate::methods::{method_spots, written_in};
use crate::shown::said_at;
use lsp_messages::Answer;
use lsp_text::{Encoding, Position};
use mg_sources::Part;
use mg_text::{Bytes, Memory, Text};
use scr_tree::Local;
use std::alloc::Global;
use std::str;
use stm_gen::generate;
use ts_tree::Typestate;

// What is shown over a typestate file of this text, which spells this typestate.
fn over_states(
    alloc: Global,
    encoding: Encoding,
    file: u32,
    text: &str,
    position: Position,
    typestate: &Typestate,
) -> Result<Answer, Memory>
    requires { (w : WFile) × Spells file text.now w }
    ensures { IfOk result (λ a. IsOfStates encoding file text.now typestate.now position a) }
{
    let Some(written) = written_in(alloc, file, text.as_bytes())? else {
        unreachable!()
    };
    let spots = method_spots(alloc, &written)?;
    drop(written);
    said_at(alloc, encoding, text, position, typestate, spots.as_slice())
}

// What is shown over the file of a protocol.
fn over_protocol(
    alloc: Global,
    encoding: Encoding,
    text: &str,
    position: Position,
    local: &Local,
) -> Result<Answer, Memory>
    ensures { IfOk result (λ a. IsSaidAt encoding text.now position (typestate_of (tree_of local.now))
        (message_spots (tree_of local.now)) a) }
{
    let spots = message_spots(alloc, local)?;
    let typestate = generate(alloc, local)?;
    said_at(
        alloc,
        encoding,
        text,
        position,
        &typestate,
        spots.as_slice(),
    )
}

// What is shown over a file of this text, which spells this part.
fn over_part(
    alloc: Global,
    encoding: Encoding,
    file: u32,
    text: &str,
    position: Position,
    part: &Part,
) -> Result<Answer, Memory>
    requires { (name : List ℕ) × IsPartOf (source_of file name text.now) (Some (part_of part.now)) }
    ensures { IfOk result (λ a. IsHoverOf encoding file text.now (Some (part_of part.now)) position a) }
{
    match part {
        Part::Protocol(local) => over_protocol(alloc, encoding, text, position, local),
        Part::States(states) => over_states(alloc, encoding, file, text, position, states),
        Part::Classes(_) => Ok(Answer::Nothing),
    }
}

// What is shown over a file of this text.
fn over_text(
    alloc: Global,
    encoding: Encoding,
    file: SourceFile<'_>,
    text: &str,
    position: Position,
) -> Result<Answer, Memory>
    requires kind { (kind : Kind) × IsOf kind (source_in file) }
    requires text { text.now ≡ file.bytes.now }
    ensures { IfOk result (λ a. IsSpelledHover encoding (source_in file.entry) position a) }
{
    match part_in(alloc, file)? {
        Some(part) => over_part(alloc, encoding, file.number, text, position, &part),
        None => Ok(Answer::Nothing),
    }
}

// What is shown over a file.
fn over_file(
    alloc: Global,
    encoding: Encoding,
    file: SourceFile<'_>,
    position: Position,
) -> Result<Answer, Memory>
    requires { (kind : Kind) × IsOf kind (source_in file) }
    ensures { IfOk result (λ a. IsHoverIn encoding (source_in file.entry) position a) }
{
    match str::from_utf8(file.bytes) {
        Ok(text) => over_text(alloc, encoding, file, text, position),
        Err(_error) => Ok(Answer::Nothing),
    }
}

/// What is shown over a position of the file of this number. In a typestate file, over the name of a method in a state, it is
/// the line `STATE: METHOD -> TARGET`; in a protocol's file, over the label of a message, that line for each state of the
/// protocol's typestate that offers the method of the message. Nothing is shown elsewhere, nor over a document that its
/// reader refuses, nor over classes.
///
/// # Errors
/// `Memory` only.
pub fn hover(
    alloc: Global,
    names: &[Text],
    contents: &[Bytes],
    encoding: Encoding,
    file: u32,
    position: Position,
) -> Result<Answer, Memory>
    requires same { length names.now ≡ length contents.now }
    requires count { length contents.now < 2 ^ 32 }
    requires kinds { HaveKinds names.now }
    ensures { IfOk result (λ a. IsHoverOver encoding names.now contents.now file position a) }
{
    match file_at(names, contents, file) {
        Some(file) => over_file(alloc, encoding, file, position),
        None => Ok(Answer::Nothing),
    }
}
