//! Changes of a text, as an editor tells them.

ghost use Rattle.std.specs.Prelude.{◌≡◌, ◌++◌, take, drop, min, max, OnOk, OnErr, string_bytes};
ghost use Rattle.lsp_text.specs.Changes.{IsReplaced, IsChanged, AreApplied};

use crate::encoding::Encoding;
use crate::positions::{Position, offset_of};
use mg_text::Memory;

/// What stands between two positions: the protocol's `Range`.
#[derive(Clone, Copy, PartialEq, Eq)]
pub struct Range {
    /// Where it begins.
    pub start: Position,
    /// Where it ends. A range whose end stands before its start means what stands between both.
    pub end: Position,
}

/// A change of a text: the protocol's `TextDocumentContentChangeEvent`.
#[derive(Drop)]
pub struct Change {
    /// What is replaced. None is the whole text.
    pub range: Option<Range>,
    /// What stands there from then on.
    pub text: String,
}

// Puts a text in the place of what stands between two positions.
fn replace(
    text: &mut String,
    range: Range,
    inserted: &str,
    encoding: Encoding,
) -> Result<(), Memory>
    ensures ok { OnOk result (IsReplaced encoding (string_bytes text.old) range inserted.now (string_bytes text.new)) }
    ensures err { OnErr result (string_bytes text.new ≡ string_bytes text.old) }
{
    let start = offset_of(text.as_str(), range.start, encoding);
    let end = offset_of(text.as_str(), range.end, encoding);
    text.replace_range(start.min(end)..start.max(end), inserted)?;
    Ok(())
}

/// Applies a change to a text, once. The positions of its range are those of the text before. What it
/// costs is linear in the text and in what is new.
///
/// # Errors
/// `Memory` only. The text is then as before.
pub fn apply(text: &mut String, change: &Change, encoding: Encoding) -> Result<(), Memory>
    ensures ok { OnOk result (IsChanged encoding change.now (string_bytes text.old) (string_bytes text.new)) }
    ensures err { OnErr result (string_bytes text.new ≡ string_bytes text.old) }
{
    match change.range {
        Some(range) => replace(text, range, change.text.as_str(), encoding),
        None => {
            *text = change.text.clone()?;
            Ok(())
        }
    }
}

/// Applies changes to a text, one after the other, each to what those before it left. What they cost
/// is linear in the text for each, and in what is new.
///
/// # Errors
/// `Memory` only. Some of the changes may then be made.
pub fn apply_all(text: &mut String, changes: &[Change], encoding: Encoding) -> Result<(), Memory>
    ensures { OnOk result (AreApplied encoding changes.now (string_bytes text.old) (string_bytes text.new)) }
{
    for change in changes {
        apply(text, change, encoding)?;
    }
    Ok(())
}
