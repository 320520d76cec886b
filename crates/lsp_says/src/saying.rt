//! Messages of the server, written as the bodies of frames.

ghost use Rattle.std.specs.Prelude.{◌≡◌, Some, IfOk};
ghost use Rattle.serde_json.specs.Read.{read};
ghost use Rattle.serde_json.specs.View.{view};
ghost use Rattle.serde_json.specs.Written.{compact_text};
ghost use Rattle.lsp_says.specs.Answers.{answer_json};
ghost use Rattle.lsp_says.specs.Said.{id_json, refused_id, error_json, result_of, error_of, published, notice_of, said};
ghost use Rattle.lsp_says.specs.Said.{code_number as number_of_code, code_message as message_of_code};

use crate::answers::answer;
use crate::lists::list;
use lsp_messages::{Answer, Code, Diagnostic, Id, Outgoing};
use mg_text::{Memory, Text};
use serde_json::{Value, json};
use std::alloc::Global;

// An id.
fn id_value(alloc: Global, id: &Id) -> Result<Value, Memory>
    ensures { IfOk result (λ v. view v ≡ id_json id.now) }
{
    match id {
        Id::Number(number) => Ok(Value::from(*number)),
        Id::Name(name) => Ok(Value::try_from_str(alloc, name.as_str())?),
    }
}

// A response with a result.
fn with_result(alloc: Global, id: Value, given: Value) -> Result<Value, Memory>
    ensures { IfOk result (λ v. view v ≡ result_of (view id) (view given)) }
{
    Ok(json!(in alloc; {"jsonrpc": "2.0", "id": id, "result": given})?)
}

// A response with an error.
fn with_error(alloc: Global, id: Value, error: Value) -> Result<Value, Memory>
    ensures { IfOk result (λ v. view v ≡ error_of (view id) (view error)) }
{
    Ok(json!(in alloc; {"jsonrpc": "2.0", "id": id, "error": error})?)
}

// The response to a request that is answered.
fn answered(alloc: Global, id: &Id, given: &Answer) -> Result<Value, Memory>
    ensures { IfOk result (λ v. view v ≡ result_of (id_json id.now) (answer_json given.now)) }
{
    let own = id_value(alloc, id)?;
    let made = answer(alloc, given)?;
    with_result(alloc, own, made)
}

// The protocol's number of a code.
fn code_number(code: Code) -> i64
    ensures { result ≡ number_of_code code }
{
    match code {
        Code::ParseError => -32700,
        Code::InvalidRequest => -32600,
        Code::MethodNotFound => -32601,
        Code::InvalidParams => -32602,
        Code::ServerNotInitialized => -32002,
    }
}

// What is said of a code.
fn code_message(code: Code) -> &'static str
    ensures { result.now ≡ message_of_code code }
{
    match code {
        Code::ParseError => "this is no JSON",
        Code::InvalidRequest => "this is no message of the protocol, or it may not come now",
        Code::MethodNotFound => "this method isn't known",
        Code::InvalidParams => "these parameters aren't the protocol's",
        Code::ServerNotInitialized => "initialize has to come first",
    }
}

// Why something isn't answered.
fn error(alloc: Global, code: Code) -> Result<Value, Memory>
    ensures { IfOk result (λ v. view v ≡ error_json code) }
{
    Ok(json!(in alloc; {"code": code_number(code), "message": code_message(code)})?)
}

// The id of what may have none.
fn known_id(alloc: Global, id: &Option<Id>) -> Result<Value, Memory>
    ensures { IfOk result (λ v. view v ≡ refused_id id.now) }
{
    match id {
        Some(id) => id_value(alloc, id),
        None => Ok(Value::Null),
    }
}

// The response to what isn't answered.
fn refused(alloc: Global, id: &Option<Id>, code: Code) -> Result<Value, Memory>
    ensures { IfOk result (λ v. view v ≡ error_of (refused_id id.now) (error_json code)) }
{
    let own = known_id(alloc, id)?;
    let made = error(alloc, code)?;
    with_error(alloc, own, made)
}

// What is told of a document's diagnostics.
fn told(
    alloc: Global,
    document: &str,
    version: Option<i64>,
    diagnostics: &[Diagnostic],
) -> Result<Value, Memory>
    ensures { IfOk result (λ v. view v ≡ published document.now version diagnostics.now) }
{
    let list = list(alloc, diagnostics)?;
    match version {
        Some(version) => {
            Ok(json!(in alloc; {"uri": document, "version": version, "diagnostics": list})?)
        }
        None => Ok(json!(in alloc; {"uri": document, "diagnostics": list})?),
    }
}

// The notification of a document's diagnostics.
fn diagnosed(
    alloc: Global,
    document: &str,
    version: Option<i64>,
    diagnostics: &[Diagnostic],
) -> Result<Value, Memory>
    ensures { IfOk result (λ v. view v ≡ notice_of (published document.now version diagnostics.now)) }
{
    let params = told(alloc, document, version, diagnostics)?;
    Ok(json!(in alloc; {
        "jsonrpc": "2.0",
        "method": "textDocument/publishDiagnostics",
        "params": params,
    })?)
}

// A message of the server.
fn value_of(alloc: Global, message: &Outgoing) -> Result<Value, Memory>
    ensures { IfOk result (λ v. view v ≡ said message.now) }
{
    match message {
        Outgoing::Answered { id, answer } => answered(alloc, id, answer),
        Outgoing::Refused { id, code } => refused(alloc, id, *code),
        Outgoing::Diagnosed {
            document,
            version,
            diagnostics,
        } => diagnosed(alloc, document.as_str(), *version, diagnostics),
    }
}

/// The text of a message in JSON: the body of a frame.
///
/// # Errors
/// `Memory` only.
pub fn say(alloc: Global, message: &Outgoing) -> Result<Text, Memory>
    ensures text { IfOk result (λ t. t ≡ compact_text (said message.now)) }
    ensures reads_back { IfOk result (λ t. read t ≡ Some (said message.now)) }
{
    let value = value_of(alloc, message)?;
    let text = value.to_string(alloc)?;
    Ok(Text::from_string(text))
}
