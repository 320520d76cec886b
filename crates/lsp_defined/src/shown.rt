//! What is shown over the words of a document.

ghost use Rattle.std.specs.Prelude.{◌≡◌, ◌≤◌, ◌+◌, All, IfOk, Some, drop, length, map, position};
ghost use Rattle.lsp_spans.specs.Words.{word_len};
ghost use Rattle.lsp_spans.specs.Spans.{IsRangeOf};
ghost use Rattle.lsp_defined.specs.Spots.{place_of};
ghost use Rattle.lsp_defined.specs.Shown.{covers_word, IsSaidOf, IsSaidAt};

use crate::lines::lines_of;
use crate::spots::Spot;
use lsp_messages::Answer;
use lsp_spans::word_len;
use lsp_text::{
    Encoding, Position, Range, offset_of, offset_of_place, offsets_of_places, position_of,
};
use mg_text::{Memory, Place};
use std::alloc::Global;
use ts_tree::Typestate;

// Where the words stand.
fn places_of(alloc: Global, spots: &[Spot]) -> Result<Vec<Place>, Memory>
    ensures { IfOk result (λ v. v.items ≡ map place_of spots.now) }
{
    let mut places = Vec::with_capacity(alloc, spots.len())?;
    for spot in spots {
        places.push(spot.place)?;
    }
    Ok(places)
}

// Where the word ends that begins here.
fn word_end(text: &[u8], start: usize) -> usize
    requires { start ≤ length text.now }
    ensures value { result ≡ start + word_len (drop start text.now) }
    ensures within { result ≤ length text.now }
{
    start + word_len(&text[start..])
}

// Whether an offset stands in the word that begins here, or at one of its ends.
fn covers_word(text: &[u8], offset: usize, start: usize) -> bool
    requires { start ≤ length text.now }
    ensures { result ≡ covers_word text.now offset start }
{
    start <= offset && offset <= word_end(text, start)
}

// Which is the first of the words that begin here that covers an offset.
fn covering(text: &[u8], offset: usize, starts: &[usize]) -> Option<usize>
    requires { All (λ o. o ≤ length text.now) starts.now }
    ensures { result ≡ position (covers_word text.now offset) starts.now }
{
    starts
        .iter()
        .position(|start| covers_word(text, offset, *start))
}

// The range of the word at a place.
fn range_of(text: &str, place: Place, encoding: Encoding) -> Range
    ensures { IsRangeOf encoding text.now place result }
{
    let start = offset_of_place(text, place);
    let end = word_end(text.as_bytes(), start);
    Range {
        start: position_of(text, start, encoding),
        end: position_of(text, end, encoding),
    }
}

// The lines of a spot, over its word.
fn said_of(
    alloc: Global,
    encoding: Encoding,
    text: &str,
    typestate: &Typestate,
    spot: &Spot,
) -> Result<Answer, Memory>
    ensures { IfOk result (λ a. IsSaidOf encoding text.now typestate.now (Some spot.now) a) }
{
    let lines = lines_of(alloc, typestate, spot)?;
    Ok(Answer::Hover {
        text: lines,
        range: range_of(text, spot.place, encoding),
    })
}

/// What is shown of the first of these spots whose word covers a position: its lines by a typestate.
///
/// # Errors
/// `Memory` only.
pub(crate) fn said_at(
    alloc: Global,
    encoding: Encoding,
    text: &str,
    position: Position,
    typestate: &Typestate,
    spots: &[Spot],
) -> Result<Answer, Memory>
    ensures { IfOk result (λ a. IsSaidAt encoding text.now position typestate.now spots.now a) }
{
    let places = places_of(alloc, spots)?;
    let starts = offsets_of_places(alloc, text, places.as_slice())?;
    let offset = offset_of(text, position, encoding);
    let Some(number) = covering(text.as_bytes(), offset, starts.as_slice()) else {
        return Ok(Answer::Nothing);
    };
    match spots.get(number) {
        Some(spot) => said_of(alloc, encoding, text, typestate, spot),
        None => Ok(Answer::Nothing),
    }
}
