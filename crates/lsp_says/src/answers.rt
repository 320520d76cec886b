//! Answers, as the protocol writes them.

ghost use Rattle.std.specs.Prelude.{◌≡◌, IfOk};
ghost use Rattle.serde_json.specs.View.{view};
ghost use Rattle.lsp_says.specs.Answers.{sync_json, listing, capabilities_json, server_json};
ghost use Rattle.lsp_says.specs.Answers.{hover_json, answer_json};
ghost use Rattle.lsp_says.specs.Answers.{encoding_name as name_of_encoding};

use crate::lists::list;
use crate::parts::range;
use lsp_messages::Answer;
use lsp_text::{Encoding, Range};
use mg_text::Memory;
use serde_json::{Value, json};
use std::alloc::Global;

// The protocol's name of an encoding.
fn encoding_name(encoding: Encoding) -> &'static str
    ensures { result.now ≡ name_of_encoding encoding }
{
    match encoding {
        Encoding::Utf8 => "utf-8",
        Encoding::Utf16 => "utf-16",
    }
}

// How documents are told.
fn sync(alloc: Global) -> Result<Value, Memory>
    ensures { IfOk result (λ v. view v ≡ sync_json) }
{
    Ok(json!(in alloc; {"openClose": true, "change": 2u64, "save": true})?)
}

// An object with one member, a list of one text.
fn listing(alloc: Global, name: &str, text: &str) -> Result<Value, Memory>
    ensures { IfOk result (λ v. view v ≡ listing name.now text.now) }
{
    Ok(json!(in alloc; {name: [text]})?)
}

// What the server can do.
fn capabilities(alloc: Global, encoding: Encoding) -> Result<Value, Memory>
    ensures { IfOk result (λ v. view v ≡ capabilities_json encoding) }
{
    Ok(json!(in alloc; {
        "positionEncoding": encoding_name(encoding),
        "textDocumentSync": sync(alloc)?,
        "hoverProvider": true,
        "inlayHintProvider": true,
        "completionProvider": listing(alloc, "triggerCharacters", ".")?,
        "definitionProvider": true,
        "documentSymbolProvider": true,
        "executeCommandProvider": listing(alloc, "commands", "mungo.diagram")?,
    })?)
}

// What the server says of itself.
fn server(alloc: Global, encoding: Encoding) -> Result<Value, Memory>
    ensures { IfOk result (λ v. view v ≡ server_json encoding) }
{
    let capabilities = capabilities(alloc, encoding)?;
    Ok(json!(in alloc; {
        "capabilities": capabilities,
        "serverInfo": {"name": "mungo-lsp"},
    })?)
}

// What is shown at a place.
fn hover(alloc: Global, text: &str, place: &Range) -> Result<Value, Memory>
    ensures { IfOk result (λ v. view v ≡ hover_json text.now place.now) }
{
    let place = range(alloc, place)?;
    Ok(json!(in alloc; {
        "contents": {"kind": "plaintext", "value": text},
        "range": place,
    })?)
}

// What a request is answered.
pub(crate) fn answer(alloc: Global, answer: &Answer) -> Result<Value, Memory>
    ensures { IfOk result (λ v. view v ≡ answer_json answer.now) }
{
    match answer {
        Answer::Nothing => Ok(Value::Null),
        Answer::Capabilities(encoding) => server(alloc, *encoding),
        Answer::Hover { text, range } => hover(alloc, text.as_str(), range),
        Answer::Completion(items) => list(alloc, items),
        Answer::Hints(hints) => list(alloc, hints),
        Answer::Definition(locations) => list(alloc, locations),
        Answer::Symbols(symbols) => list(alloc, symbols),
        Answer::Diagram(text) => Ok(Value::try_from_str(alloc, text.as_str())?),
    }
}
