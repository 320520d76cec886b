//! Messages of a client, read from the bodies of frames.

ghost use Rattle.std.specs.Prelude.{◌≡◌, Some, IfOk, option_map};
ghost use Rattle.serde_json.specs.View.{view};
ghost use Rattle.serde_json.specs.Read.{read as read_text};
ghost use Rattle.lsp_json.specs.Heard.{seen};
ghost use Rattle.lsp_json.specs.Reading as is;

use crate::calls::call_of;
use crate::fields::text_at;
use crate::methods::{asked_for, told_of};
use crate::notices::notice_of;
use crate::reading::id_of;
use lsp_messages::Incoming;
use mg_text::Memory;
use serde_json::Value;
use std::alloc::Global;

// What has no method.
fn uncalled(alloc: Global, value: &Value) -> Result<Incoming, Memory>
    ensures { IfOk result (λ m. seen m ≡ is.uncalled (view value.now)) }
{
    if value.get("result").is_some() || value.get("error").is_some() {
        return Ok(Incoming::Reply);
    }
    match value.get("id") {
        Some(id) => Ok(Incoming::Ill {
            id: id_of(alloc, id)?,
        }),
        None => Ok(Incoming::Ill { id: None }),
    }
}

// What has a method, with its parameters and its id.
fn called(
    alloc: Global,
    method: &str,
    params: &Value,
    id: Option<&Value>,
) -> Result<Incoming, Memory>
    ensures { IfOk result (λ m. seen m ≡ is.called method.now (view params.now) (option_map (λ v. view v.now) id.entry)) }
{
    match id {
        None => Ok(Incoming::Told(notice_of(alloc, told_of(method), params)?)),
        Some(id) => match id_of(alloc, id)? {
            Some(id) => Ok(Incoming::Request {
                id,
                call: call_of(alloc, asked_for(method), params)?,
            }),
            None => Ok(Incoming::Ill { id: None }),
        },
    }
}

// Which message a value is.
fn message(alloc: Global, value: &Value) -> Result<Incoming, Memory>
    ensures { IfOk result (λ m. seen m ≡ is.heard (Some (view value.now))) }
{
    let method = match text_at(value, "method") {
        Some(method) => method,
        None => return uncalled(alloc, value),
    };
    let id = value.get("id");
    match value.get("params") {
        Some(params) => called(alloc, method, params, id),
        None => called(alloc, method, &Value::Null, id),
    }
}

/// Which message a text is: the body of a frame. What is no JSON is malformed, and what nests deeper than 127 too.
///
/// # Errors
/// `Memory` only.
pub fn read(alloc: Global, text: &str) -> Result<Incoming, Memory>
    ensures { IfOk result (λ m. seen m ≡ is.heard (read_text text.now)) }
{
    match Value::from_str(alloc, text) {
        Ok(value) => message(alloc, &value),
        Err(error) if error.is_memory() => Err(Memory),
        Err(_) => Ok(Incoming::Malformed),
    }
}
