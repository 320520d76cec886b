//! Ids, and lists of values.

ghost use Rattle.std.specs.Prelude.{◌≡◌, IfOk, option_map};
ghost use Rattle.serde_json.specs.Find.{as_str};
ghost use Rattle.serde_json.specs.View.{view, items_view};
ghost use Rattle.lsp_json.specs.Reading as is;

use lsp_messages::Id;
use mg_text::{Memory, Text};
use serde_json::Value;
use std::alloc::Global;

// An id, where it is one.
pub(crate) fn id_of(alloc: Global, value: &Value) -> Result<Option<Id>, Memory>
    ensures { IfOk result (λ o. o ≡ is.id_of (view value.now)) }
{
    match value {
        Value::Number(_) => match value.as_i64() {
            Some(number) => Ok(Some(Id::Number(number))),
            None => Ok(None),
        },
        Value::String(text) => Ok(Some(Id::Name(Text::of(alloc, text.as_str())?))),
        _ => Ok(None),
    }
}

// Whether a value is this text.
fn is_text(value: &Value, text: &str) -> bool
    ensures { result ≡ is.is_text text.now (as_str (view value.now)) }
{
    match value.as_str() {
        Some(found) => found == text,
        None => false,
    }
}

// Whether one of the values is this text.
fn has_text(values: &[Value], text: &str) -> bool
    ensures { result ≡ is.has_text text.now (items_view values.now) }
{
    for value in values {
        if is_text(value, text) {
            return true;
        }
    }
    false
}

// The values of a list at a name. None where there is no list.
pub(crate) fn list_at<'v>(value: &'v Value, name: &str) -> Option<&'v [Value]>
    ensures { option_map (λ l. items_view l.now) result ≡ is.list_at name.now (view value.now) }
{
    match value.get(name) {
        Some(found) => match found.as_array() {
            Some(list) => Some(list.as_slice()),
            None => None,
        },
        None => None,
    }
}

// Whether the client can count in bytes of UTF-8.
pub(crate) fn knows_utf8(params: &Value) -> bool
    ensures { result ≡ is.knows_utf8 (view params.now) }
{
    let capabilities = match params.get("capabilities") {
        Some(found) => found,
        None => return false,
    };
    let general = match capabilities.get("general") {
        Some(found) => found,
        None => return false,
    };
    match list_at(general, "positionEncodings") {
        Some(list) => has_text(list, "utf-8"),
        None => false,
    }
}
