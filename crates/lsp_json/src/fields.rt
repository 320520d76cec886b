//! The parts of parameters, as the protocol writes them.

ghost use Rattle.std.specs.Prelude.{◌≡◌, IfOk, option_map};
ghost use Rattle.serde_json.specs.View.{view};
ghost use Rattle.lsp_json.specs.Fields as is;

use lsp_messages::Point;
use lsp_text::{Position, Range};
use mg_text::{Memory, Text};
use serde_json::Value;
use std::alloc::Global;

// The text at a name.
pub(crate) fn text_at<'v>(value: &'v Value, name: &str) -> Option<&'v str>
    ensures { option_map (λ s. s.now) result ≡ is.text_at name.now (view value.now) }
{
    match value.get(name) {
        Some(found) => found.as_str(),
        None => None,
    }
}

// A copy of the text at a name.
pub(crate) fn copy_at(alloc: Global, value: &Value, name: &str) -> Result<Option<Text>, Memory>
    ensures { IfOk result (λ o. o ≡ is.text_at name.now (view value.now)) }
{
    match text_at(value, name) {
        Some(text) => Ok(Some(Text::of(alloc, text)?)),
        None => Ok(None),
    }
}

// The number at a name, where it isn't below 0.
fn count_at(value: &Value, name: &str) -> Option<usize>
    ensures { result ≡ is.count_at name.now (view value.now) }
{
    match value.get(name) {
        Some(found) => match found.as_u64() {
            Some(count) => Some(count as usize),
            None => None,
        },
        None => None,
    }
}

// A position.
fn position_of(value: &Value) -> Option<Position>
    ensures { result ≡ is.position_of (view value.now) }
{
    match (count_at(value, "line"), count_at(value, "character")) {
        (Some(line), Some(character)) => Some(Position { line, character }),
        _ => None,
    }
}

// The position at a name.
pub(crate) fn position_at(value: &Value, name: &str) -> Option<Position>
    ensures { result ≡ is.position_at name.now (view value.now) }
{
    match value.get(name) {
        Some(found) => position_of(found),
        None => None,
    }
}

// A range.
pub(crate) fn range_of(value: &Value) -> Option<Range>
    ensures { result ≡ is.range_of (view value.now) }
{
    match (position_at(value, "start"), position_at(value, "end")) {
        (Some(start), Some(end)) => Some(Range { start, end }),
        _ => None,
    }
}

// The range at a name.
pub(crate) fn range_at(value: &Value, name: &str) -> Option<Range>
    ensures { result ≡ is.range_at name.now (view value.now) }
{
    match value.get(name) {
        Some(found) => range_of(found),
        None => None,
    }
}

// The name of the document that parameters are about.
pub(crate) fn document_of(alloc: Global, params: &Value) -> Result<Option<Text>, Memory>
    ensures { IfOk result (λ o. o ≡ is.document_of (view params.now)) }
{
    match params.get("textDocument") {
        Some(found) => copy_at(alloc, found, "uri"),
        None => Ok(None),
    }
}

// A position in a document.
pub(crate) fn point_of(alloc: Global, params: &Value) -> Result<Option<Point>, Memory>
    ensures { IfOk result (λ o. o ≡ is.point_of (view params.now)) }
{
    let document = document_of(alloc, params)?;
    match (document, position_at(params, "position")) {
        (Some(document), Some(position)) => Ok(Some(Point { document, position })),
        _ => Ok(None),
    }
}
