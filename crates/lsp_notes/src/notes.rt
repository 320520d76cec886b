//! Refusals of one file, as diagnostics.

ghost use Rattle.std.specs.Prelude.{◌≡◌, length, map, IfOk};
ghost use Rattle.lsp_notes.specs.Homes.{place_in};
ghost use Rattle.lsp_notes.specs.Told.{text_of, AreDiagnostics};
ghost use Rattle.lsp_notes.specs.inner.Pairs.{diagnostic_of, diagnostics};

use crate::homes::place_in;
use lsp_messages::Diagnostic;
use lsp_sentences::message;
use lsp_spans::ranges_of;
use lsp_text::{Encoding, Range};
use mg_refusal::Refusal;
use mg_text::{Memory, Place, Text};
use std::alloc::Global;

// The text of a file: its longest front that is UTF-8.
fn text_of(bytes: &[u8]) -> &str
    ensures { result.now ≡ text_of bytes.now }
{
    match std::str::from_utf8(bytes) {
        Ok(text) => text,
        Err(error) => std::str::from_utf8(&bytes[..error.valid_up_to()]).unwrap(),
    }
}

// Where refusals are told, of so many files.
fn places_of(alloc: Global, refusals: &[Refusal], count: usize) -> Result<Vec<Place>, Memory>
    ensures { IfOk result (λ v. v.items ≡ map (place_in count) refusals.now) }
{
    let mut places = Vec::with_capacity(alloc, refusals.len())?;
    for refusal in refusals {
        places.push(place_in(count, refusal))?;
    }
    Ok(places)
}

// A refusal as a diagnostic.
fn diagnostic_of(alloc: Global, refusal: &Refusal, range: Range) -> Result<Diagnostic, Memory>
    ensures { IfOk result (λ d. d ≡ diagnostic_of refusal.now range) }
{
    let code = Text::of(alloc, refusal.kind())?;
    let message = message(alloc, refusal)?;
    Ok(Diagnostic {
        range,
        code,
        message,
    })
}

// Refusals as diagnostics, one by one.
fn diagnostics_of(
    alloc: Global,
    refusals: &[Refusal],
    ranges: &[Range],
) -> Result<Vec<Diagnostic>, Memory>
    requires { length refusals.now ≡ length ranges.now }
    ensures { IfOk result (λ v. v.items ≡ diagnostics refusals.now ranges.now) }
{
    let mut list = Vec::with_capacity(alloc, refusals.len())?;
    for (number, refusal) in refusals.iter().enumerate() {
        let diagnostic = diagnostic_of(alloc, refusal, ranges[number])?;
        list.push(diagnostic)?;
    }
    Ok(list)
}

/// The diagnostics of refusals that are told in a file of these bytes, one of so many files.
///
/// # Errors
/// `Memory` only.
pub(crate) fn notes_of(
    alloc: Global,
    bytes: &[u8],
    refusals: &[Refusal],
    count: usize,
    encoding: Encoding,
) -> Result<Vec<Diagnostic>, Memory>
    ensures { IfOk result (λ v. AreDiagnostics encoding count (text_of bytes.now) refusals.now v.items) }
{
    let places = places_of(alloc, refusals, count)?;
    let ranges = ranges_of(alloc, text_of(bytes), places.as_slice(), encoding)?;
    diagnostics_of(alloc, refusals, ranges.as_slice())
}
