//! What a notification tells.

ghost use Rattle.std.specs.Prelude.{◌≡◌, IfOk, map, option_map, string_bytes};
ghost use Rattle.serde_json.specs.Find.{get};
ghost use Rattle.serde_json.specs.View.{view, items_view};
ghost use Rattle.std.specs.Prelude.{codes};
ghost use Rattle.lsp_json.specs.Heard.{notice_seen, edit};
ghost use Rattle.lsp_json.specs.Reading as is;

use crate::fields::{copy_at, document_of, range_of, text_at};
use crate::methods::Told;
use crate::reading::list_at;
use lsp_messages::Notice;
use lsp_text::Change;
use mg_text::Memory;
use serde_json::Value;
use std::alloc::Global;

// The version of the document that parameters are about.
fn version_of(params: &Value) -> i64
    ensures { result ≡ is.version_of (get (codes "textDocument") (view params.now)) }
{
    let document = match params.get("textDocument") {
        Some(document) => document,
        None => return 0,
    };
    match document.get("version") {
        Some(version) => version.as_i64().unwrap_or(0),
        None => 0,
    }
}

// A change by a text, where its range is one, or none, or null.
fn change_with(range: Option<&Value>, text: String) -> Option<Change>
    ensures { option_map edit result ≡ is.edit_with (option_map (λ v. view v.now) range.entry) (string_bytes text) }
{
    match range {
        Some(found) if !found.is_null() => match range_of(found) {
            Some(range) => Some(Change {
                range: Some(range),
                text,
            }),
            None => None,
        },
        _ => Some(Change { range: None, text }),
    }
}

// A change, where it has a text, and a range or none.
fn change_of(alloc: Global, value: &Value) -> Result<Option<Change>, Memory>
    ensures { IfOk result (λ o. option_map edit o ≡ is.edit_of (view value.now)) }
{
    let text = match text_at(value, "text") {
        Some(text) => text,
        None => return Ok(None),
    };
    let text = String::from_str(alloc, text)?;
    Ok(change_with(value.get("range"), text))
}

// The changes, all of them or none.
fn changes_in(alloc: Global, values: &[Value]) -> Result<Option<Vec<Change>>, Memory>
    ensures { IfOk result (λ o. option_map (λ v. map edit v.items) o ≡ is.edits_of (items_view values.now)) }
{
    let mut changes = Vec::new(alloc);
    for value in values {
        let read = change_of(alloc, value)?;
        match read {
            Some(change) => changes.push(change)?,
            None => return Ok(None),
        }
    }
    Ok(Some(changes))
}

// The changes that parameters tell.
fn changes_of(alloc: Global, params: &Value) -> Result<Option<Vec<Change>>, Memory>
    ensures { IfOk result (λ o. option_map (λ v. map edit v.items) o ≡ is.changes_of (view params.now)) }
{
    match list_at(params, "contentChanges") {
        Some(list) => changes_in(alloc, list),
        None => Ok(None),
    }
}

// A document is opened.
fn opening(alloc: Global, params: &Value) -> Result<Notice, Memory>
    ensures { IfOk result (λ n. notice_seen n ≡ is.opening_of (view params.now)) }
{
    let document = document_of(alloc, params)?;
    let text = match params.get("textDocument") {
        Some(found) => copy_at(alloc, found, "text")?,
        None => None,
    };
    match (document, text) {
        (Some(document), Some(text)) => Ok(Notice::Open {
            document,
            version: version_of(params),
            text,
        }),
        _ => Ok(Notice::Unknown),
    }
}

// A document is changed.
fn changing(alloc: Global, params: &Value) -> Result<Notice, Memory>
    ensures { IfOk result (λ n. notice_seen n ≡ is.changing_of (view params.now)) }
{
    let document = document_of(alloc, params)?;
    let changes = changes_of(alloc, params)?;
    match (document, changes) {
        (Some(document), Some(changes)) => Ok(Notice::Change {
            document,
            version: version_of(params),
            changes,
        }),
        _ => Ok(Notice::Unknown),
    }
}

// What a notification tells.
pub(crate) fn notice_of(alloc: Global, told: Told, params: &Value) -> Result<Notice, Memory>
    ensures { IfOk result (λ n. notice_seen n ≡ is.notice_of told (view params.now)) }
{
    match told {
        Told::Initialized => Ok(Notice::Initialized),
        Told::Open => opening(alloc, params),
        Told::Change => changing(alloc, params),
        Told::Save => match document_of(alloc, params)? {
            Some(document) => Ok(Notice::Save(document)),
            None => Ok(Notice::Unknown),
        },
        Told::Close => match document_of(alloc, params)? {
            Some(document) => Ok(Notice::Close(document)),
            None => Ok(Notice::Unknown),
        },
        Told::Exit => Ok(Notice::Exit),
        Told::Cancel => Ok(Notice::Cancel),
        Told::Unknown => Ok(Notice::Unknown),
    }
}
