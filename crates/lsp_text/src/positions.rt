//! Positions of the protocol, and the offsets that they mean.

ghost use Rattle.std.specs.Prelude.{◌+◌, ◌≤◌, length, IfOk};
ghost use Rattle.std.specs.Str.{IsCharBoundary, IsUtf8};
ghost use Rattle.lsp_text.specs.Lines.{IsBehind};
ghost use Rattle.lsp_text.specs.Positions.{Means, IsPositionOf, ArePositionsOf};
ghost use Rattle.lsp_text.specs.inner.Walk.{IsLineAt};

use crate::columns::column;
use crate::encoding::Encoding;
use crate::lines::{line_of, split_line};
use mg_text::Memory;
use std::alloc::Global;

/// A place in a text, between two characters: the protocol's `Position`. Both numbers count from 0.
#[derive(Clone, Copy, PartialEq, Eq)]
pub struct Position {
    /// How many lines end before it.
    pub line: usize,
    /// How many bytes of UTF-8, or code units of UTF-16, its line has before it.
    pub character: usize,
}

/// The offset in bytes that a position means in a text. A position behind its line's end means that
/// end, one within a character that character's beginning, and one in a line that the text doesn't
/// have the end of the text.
pub fn offset_of(text: &str, position: Position, encoding: Encoding) -> usize
    ensures means { Means encoding text.now position result }
    ensures boundary { IsCharBoundary text.now result }
{
    let mut rest = text;
    for _line in 0..position.line {
        match split_line(rest) {
            Some((_, after)) => rest = after,
            None => return text.len(),
        }
    }
    let start = text.len() - rest.len();
    start + column(line_of(rest), encoding, position.character, Encoding::Utf8)
}

// The position of the last place before or at an offset, which stands in the first line of the rest.
fn position_in(text: &str, rest: &str, line: usize, offset: usize, encoding: Encoding) -> Position
    requires { IsLineAt text.now offset line rest.now }
    ensures { IsPositionOf encoding text.now offset result }
{
    let start = text.len() - rest.len();
    let character = column(line_of(rest), Encoding::Utf8, offset - start, encoding);
    Position { line, character }
}

// The line that an offset stands in, from a line on that begins before or at it: what begins there, and its number.
fn line_from<'a>(text: &'a str, first: &'a str, number: usize, offset: usize) -> (&'a str, usize)
    requires behind { IsBehind number text.now first.now }
    requires reached { length text.now ≤ offset + length first.now }
    requires shorter { number + length first.now ≤ length text.now }
    ensures line { IsLineAt text.now offset result.1 result.0.now }
    ensures utf8 { IsUtf8 result.0.now }
{
    let mut rest = first;
    let mut line = number;
    'lines: while let Some((_, after)) = split_line(rest) {
        if text.len() - after.len() > offset {
            return (rest, line);
        }
        rest = after;
        line += 1;
    }
    (rest, line)
}

// The line that an offset stands in, sought from a known line on, or from the first where that begins behind it.
fn line_at<'a>(text: &'a str, known: &'a str, number: usize, offset: usize) -> (&'a str, usize)
    requires behind { IsBehind number text.now known.now }
    requires shorter { number + length known.now ≤ length text.now }
    ensures line { IsLineAt text.now offset result.1 result.0.now }
    ensures utf8 { IsUtf8 result.0.now }
{
    if text.len() - known.len() > offset {
        return line_from(text, text, 0, offset);
    }
    line_from(text, known, number, offset)
}

/// The position of an offset in bytes. Where the offset stands within a character, between a
/// carriage return and its line feed, or behind the text's end, it is that of the last place before it.
pub fn position_of(text: &str, offset: usize, encoding: Encoding) -> Position
    ensures { IsPositionOf encoding text.now offset result }
{
    let (rest, line) = line_from(text, text, 0, offset);
    position_in(text, rest, line, offset, encoding)
}

/// The positions of offsets, one for each in their order. Where the offsets ascend the lines are sought
/// in one walk over the text: what is done is linear in the text, and for each offset in its line.
///
/// # Errors
/// `Memory` only.
pub fn positions_of(
    alloc: Global,
    text: &str,
    offsets: &[usize],
    encoding: Encoding,
) -> Result<Vec<Position>, Memory>
    ensures { IfOk result (λ v. ArePositionsOf encoding text.now offsets.now v.items) }
{
    let mut positions = Vec::with_capacity(alloc, offsets.len())?;
    let mut rest = text;
    let mut line = 0;
    for offset in offsets {
        let (found, number) = line_at(text, rest, line, *offset);
        rest = found;
        line = number;
        positions.push(position_in(text, rest, line, *offset, encoding))?;
    }
    Ok(positions)
}
