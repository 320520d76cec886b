//! From places of mungo to offsets and positions. Mungo ends a line at a line feed alone, and counts a column in bytes.

ghost use Rattle.std.specs.Prelude.{◌≡◌, ◌+◌, ◌<◌, ◌≤◌, ◌^◌, ℕ, MatchBool, IfOk};
ghost use Rattle.mg_text.specs.Places.{step};
ghost use Rattle.lsp_text.specs.Places.{here, IsReached, IsOffsetOf, AreOffsetsOf};
ghost use Rattle.lsp_text.specs.inner.Spots.{IsSpot};
ghost use Rattle.lsp_text.specs.Positions.{IsPositionOf};

use crate::encoding::Encoding;
use crate::positions::{Position, position_of};
use mg_text::{Memory, Place};
use std::alloc::Global;

// The line and column behind a byte.
fn behind_byte(line: usize, column: usize, byte: u8) -> (usize, usize)
    requires lines { line + 1 < 2 ^ 64 }
    requires columns { column + 1 < 2 ^ 64 }
    ensures place { (file : ℕ) → here file result.0 result.1 ≡ step (here file line column) byte }
    ensures line { result.0 ≤ line + 1 }
    ensures column { result.1 ≤ column + 1 }
{
    if byte == b'\n' {
        (line + 1, 1)
    } else {
        (line, column + 1)
    }
}

// Whether a line and column aren't behind a place.
fn is_reached(line: usize, column: usize, place: Place) -> bool
    ensures { MatchBool result (IsReached (here place.file line column) place) (¬ IsReached (here place.file line column) place) }
{
    if line == place.line as usize {
        return column <= place.column as usize;
    }
    line < place.line as usize
}

// Where a walk over a text has come to: how many bytes are passed, and the line and column behind them.
#[derive(Clone, Copy)]
struct Spot {
    line: usize,
    column: usize,
    offset: usize,
}

// Where a text begins.
fn beginning() -> Spot
    ensures { result ≡ record { line = 1; column = 1; offset = 0 } }
{
    Spot {
        line: 1,
        column: 1,
        offset: 0,
    }
}

// The last spot that isn't behind a place, from one on that isn't.
fn spot_from(text: &str, known: Spot, place: Place) -> Spot
    requires spot { IsSpot text.now known }
    requires reached { 0 < known.offset → IsReached (here place.file known.line known.column) place }
    ensures spot { IsSpot text.now result }
    ensures offset { IsOffsetOf text.now place result.offset }
{
    let (_, ahead) = text.as_bytes().split_at(known.offset);
    let mut line = known.line;
    let mut column = known.column;
    let mut offset = known.offset;
    for byte in ahead {
        let (next_line, next_column) = behind_byte(line, column, *byte);
        if !is_reached(next_line, next_column, place) {
            return Spot {
                line,
                column,
                offset,
            };
        }
        line = next_line;
        column = next_column;
        offset += 1;
    }
    Spot {
        line,
        column,
        offset,
    }
}

// The last spot that isn't behind a place, sought from a known one on, or from the text's start where that is behind it.
fn spot_of(text: &str, known: Spot, place: Place) -> Spot
    requires { IsSpot text.now known }
    ensures spot { IsSpot text.now result }
    ensures offset { IsOffsetOf text.now place result.offset }
{
    if is_reached(known.line, known.column, place) {
        return spot_from(text, known, place);
    }
    spot_from(text, beginning(), place)
}

/// The offset in bytes that a place of mungo has in a text, whatever its file: the last one whose place isn't behind it.
pub fn offset_of_place(text: &str, place: Place) -> usize
    ensures { IsOffsetOf text.now place result }
{
    spot_from(text, beginning(), place).offset
}

/// The offsets that places of mungo have in a text, one for each in their order. Where the places ascend
/// they are sought in one walk over the text.
///
/// # Errors
/// `Memory` only.
pub fn offsets_of_places(alloc: Global, text: &str, places: &[Place]) -> Result<Vec<usize>, Memory>
    ensures { IfOk result (λ v. AreOffsetsOf text.now places.now v.items) }
{
    let mut offsets = Vec::with_capacity(alloc, places.len())?;
    let mut spot = beginning();
    for place in places {
        spot = spot_of(text, spot, *place);
        offsets.push(spot.offset)?;
    }
    Ok(offsets)
}

/// The position of a place of mungo in a text. Its lines may be more than mungo's: a carriage return
/// alone ends one too.
pub fn position_of_place(text: &str, place: Place, encoding: Encoding) -> Position
    ensures { (o : ℕ) × IsOffsetOf text.now place o × IsPositionOf encoding text.now o result }
{
    position_of(text, offset_of_place(text, place), encoding)
}
