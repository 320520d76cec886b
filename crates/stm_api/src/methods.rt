//! The methods of an API class: one for each call of the role.

ghost use Rattle.std.specs.Prelude.{◌≡◌, IfOk, map};
ghost use Rattle.scr_tree.specs.CallNames.{message_call, label_call};
ghost use Rattle.scr_tree.specs.Local.{tree_of};
ghost use Rattle.scr_tree.specs.Meaning.{message_of};
ghost use Rattle.stm_gen.specs.Laid.{carried_params};
ghost use Rattle.jv_tree.specs.View.{method_of as kept_method, stmt_of};
ghost use Rattle.stm_api.specs.Doings.{call_of};
ghost use Rattle.stm_api.specs.Api.{method_of, method_with, look_method, send_method, take_method, value_param};
ghost use Rattle.stm_api.specs.inner.View.{doing_of, names_of};

use crate::bodies::{look_body, send_body, take_body};
use crate::doings::Doing;
use jv_tree::{MethodDecl, Param, Stmt};
use mg_text::{List, Memory, Place, Text};
use scr_trace::label_call_name;
use scr_tree::{Direction, Local, Message, Payload, call_name};
use std::alloc::Global;
use stm_gen::{carried, choice_enum};
use ts_tree::TypeName;

/// The name of the method that does this.
pub fn call_of(alloc: Global, local: &Local, doing: &Doing<'_>) -> Result<Text, Memory>
    ensures { IfOk result (λ t. t ≡ call_of (tree_of local.now).me (doing_of doing.now)) }
{
    match doing {
        Doing::Passes(message) => call_name(alloc, message),
        Doing::Asks(number, peer, _) => label_call_name(alloc, local, *number, peer.as_str()),
    }
}

/// The method of this name that does this.
#[tactic(auto, using(crate::proofs::Made::messages))]
pub fn method_of(
    alloc: Global,
    local: &Local,
    place: Place,
    name: Text,
    doing: &Doing<'_>,
) -> Result<MethodDecl, Memory>
    requires { name ≡ call_of (tree_of local.now).me (doing_of doing.now) }
    ensures { IfOk result (λ m. kept_method m ≡ method_of place (tree_of local.now).me (doing_of doing.now)) }
{
    match doing {
        Doing::Passes(message) => match message.direction {
            Direction::To => send_method(alloc, place, name, message),
            Direction::From => take_method(alloc, place, name, message),
        },
        Doing::Asks(number, peer, labels) => {
            look_method(alloc, local, place, name, *number, peer, labels.as_slice())
        }
    }
}

// The method that sends a message.
fn send_method(
    alloc: Global,
    place: Place,
    name: Text,
    message: &Message,
) -> Result<MethodDecl, Memory>
    requires { name ≡ message_call (message_of message.now) }
    ensures { IfOk result (λ m. kept_method m ≡ send_method place (message_call (message_of message.now)) message.now.peer message.now.label
        message.now.payload) }
{
    let params = value_params(alloc, place, message.payload)?;
    let body = send_body(alloc, place, message)?;
    Ok(method(place, TypeName::Void, name, params, body))
}

// The method that takes a message, and answers what it carries.
fn take_method(
    alloc: Global,
    place: Place,
    name: Text,
    message: &Message,
) -> Result<MethodDecl, Memory>
    requires { name ≡ message_call (message_of message.now) }
    ensures { IfOk result (λ m. kept_method m ≡ take_method place (message_call (message_of message.now)) message.now.peer message.now.label
        message.now.payload) }
{
    let body = take_body(alloc, place, message)?;
    let result = carried(message.payload);
    Ok(method(place, result, name, List::new(alloc), body))
}

// The method that looks which branch a peer has taken.
fn look_method(
    alloc: Global,
    local: &Local,
    place: Place,
    name: Text,
    number: u32,
    peer: &Text,
    labels: &[&Text],
) -> Result<MethodDecl, Memory>
    requires { name ≡ label_call (tree_of local.now).me number peer.now }
    ensures { IfOk result (λ m. kept_method m ≡ look_method place (tree_of local.now).me number peer.now (names_of labels.now)) }
{
    let answers = choice_enum(alloc, local.me().as_str(), number)?;
    let body = look_body(alloc, place, answers.as_str(), peer.as_str(), labels)?;
    let result = TypeName::Named(answers);
    Ok(method(place, result, name, List::new(alloc), body))
}

// A method of an object.
fn method(
    place: Place,
    answers: TypeName,
    name: Text,
    params: List<Param>,
    body: List<Stmt>,
) -> MethodDecl
    ensures { kept_method result ≡ method_with place answers name params.items (map stmt_of body.items) }
{
    MethodDecl {
        place,
        end: place,
        is_static: false,
        result: answers,
        name,
        params,
        takes_args: false,
        body,
    }
}

// The parameter of the method that sends what a message carries.
fn value_params(alloc: Global, place: Place, payload: Payload) -> Result<List<Param>, Memory>
    ensures { IfOk result (λ ps. ps.items ≡ map (value_param place) (carried_params payload)) }
{
    let mut params = List::new(alloc);
    if payload == Payload::Nothing {
        return Ok(params);
    }
    let name = Text::of(alloc, "value")?;
    let ty = carried(payload);
    params.push(Param { place, ty, name })?;
    Ok(params)
}
