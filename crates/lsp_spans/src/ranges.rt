//! Ranges of words.

ghost use Rattle.std.specs.Prelude.{◌≡◌, ◌+◌, ◌≤◌, All, IfOk, length, drop, map};
ghost use Rattle.lsp_spans.specs.Words.{word_len};
ghost use Rattle.lsp_spans.specs.Spans.{AreRangesOf};
ghost use Rattle.lsp_spans.specs.inner.Pairs.{ranges};

use crate::words::word_len;
use lsp_text::{Encoding, Position, Range, offsets_of_places, positions_of};
use mg_text::{Memory, Place};
use std::alloc::Global;

// Where the words end that begin at these offsets of a text.
fn ends_of(alloc: Global, text: &[u8], starts: &[usize]) -> Result<Vec<usize>, Memory>
    requires { All (λ o. o ≤ length text.now) starts.now }
    ensures { IfOk result (λ v. v.items ≡ map (λ o. o + word_len (drop o text.now)) starts.now) }
{
    let mut ends = Vec::with_capacity(alloc, starts.len())?;
    for start in starts {
        let len = word_len(&text[*start..]);
        ends.push(*start + len)?;
    }
    Ok(ends)
}

// The ranges between positions, one by one.
fn between(alloc: Global, starts: &[Position], ends: &[Position]) -> Result<Vec<Range>, Memory>
    requires { length starts.now ≡ length ends.now }
    ensures { IfOk result (λ v. v.items ≡ ranges starts.now ends.now) }
{
    let mut ranges = Vec::with_capacity(alloc, starts.len())?;
    for (place, start) in starts.iter().enumerate() {
        ranges.push(Range {
            start: *start,
            end: ends[place],
        })?;
    }
    Ok(ranges)
}

/// The ranges of the words that stand at places of a text, whatever their file, one for each in
/// their order. Where the places ascend the text is walked a few times, however many they are.
///
/// # Errors
/// `Memory` only.
pub fn ranges_of(
    alloc: Global,
    text: &str,
    places: &[Place],
    encoding: Encoding,
) -> Result<Vec<Range>, Memory>
    ensures { IfOk result (λ v. AreRangesOf encoding text.now places.now v.items) }
{
    let starts = offsets_of_places(alloc, text, places)?;
    let ends = ends_of(alloc, text.as_bytes(), starts.as_slice())?;
    let begins = positions_of(alloc, text, starts.as_slice(), encoding)?;
    let behind = positions_of(alloc, text, ends.as_slice(), encoding)?;
    between(alloc, begins.as_slice(), behind.as_slice())
}
