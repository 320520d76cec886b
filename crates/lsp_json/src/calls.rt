//! What a request asks for.

ghost use Rattle.std.specs.Prelude.{◌≡◌, IfOk};
ghost use Rattle.serde_json.specs.View.{view};
ghost use Rattle.lsp_json.specs.Reading as is;

use crate::fields::{document_of, point_of, range_at, text_at};
use crate::methods::Asked;
use crate::reading::{knows_utf8, list_at};
use lsp_messages::{Call, Question};
use mg_text::{Memory, Text};
use serde_json::Value;
use std::alloc::Global;

// The first of the arguments of a command, where it is a text.
fn argument_of(alloc: Global, params: &Value) -> Result<Option<Text>, Memory>
    ensures { IfOk result (λ o. o ≡ is.argument_of (view params.now)) }
{
    let list = match list_at(params, "arguments") {
        Some(list) => list,
        None => return Ok(None),
    };
    if list.is_empty() {
        return Ok(None);
    }
    match list[0].as_str() {
        Some(text) => Ok(Some(Text::of(alloc, text)?)),
        None => Ok(None),
    }
}

// The document whose diagram is asked for.
fn diagram_of(alloc: Global, params: &Value) -> Result<Option<Text>, Memory>
    ensures { IfOk result (λ o. o ≡ is.diagram_of (view params.now)) }
{
    match text_at(params, "command") {
        Some(name) if name == "mungo.diagram" => argument_of(alloc, params),
        _ => Ok(None),
    }
}

// The document and the range that hints are asked for.
fn hints_of(alloc: Global, params: &Value) -> Result<Option<Question>, Memory>
    ensures { IfOk result (λ o. o ≡ is.hints_of (view params.now)) }
{
    let document = document_of(alloc, params)?;
    match (document, range_at(params, "range")) {
        (Some(document), Some(range)) => Ok(Some(Question::Hints { document, range })),
        _ => Ok(None),
    }
}

// A question, where its parameters are the protocol's.
fn asks(question: Option<Question>) -> Call
    ensures { result ≡ is.asks question }
{
    match question {
        Some(question) => Call::Ask(question),
        None => Call::BadParameters,
    }
}

// What a request asks for.
pub(crate) fn call_of(alloc: Global, asked: Asked, params: &Value) -> Result<Call, Memory>
    ensures { IfOk result (λ c. c ≡ is.call_of asked (view params.now)) }
{
    match asked {
        Asked::Initialize => Ok(Call::Initialize {
            utf8: knows_utf8(params),
        }),
        Asked::Shutdown => Ok(Call::Shutdown),
        Asked::Hover => Ok(asks(point_of(alloc, params)?.map(Question::Hover))),
        Asked::Completion => Ok(asks(point_of(alloc, params)?.map(Question::Completion))),
        Asked::Definition => Ok(asks(point_of(alloc, params)?.map(Question::Definition))),
        Asked::Hints => Ok(asks(hints_of(alloc, params)?)),
        Asked::Symbols => Ok(asks(document_of(alloc, params)?.map(Question::Symbols))),
        Asked::Command => Ok(asks(diagram_of(alloc, params)?.map(Question::Diagram))),
        Asked::Unknown => Ok(Call::Unknown),
    }
}
