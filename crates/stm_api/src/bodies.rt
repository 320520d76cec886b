//! The bodies of API methods.

ghost use Rattle.std.specs.Prelude.{◌≡◌, ◌++◌, [], ◌∷◌, IfOk, OnOk, map, Some as There};
ghost use Rattle.jv_tree.specs.Source.{Text as Quoted, Block, Then, NoStmt, Return};
ghost use Rattle.jv_tree.specs.View.{expr_of, stmt_of, stmt_kind_of};
ghost use Rattle.stm_api.specs.Api.{send_call, take_call, sent, send_body, take_body, found_by, refusal, look_body, label_test};
ghost use Rattle.stm_api.specs.Api.{first_label, constant};
ghost use Rattle.stm_api.specs.inner.View.{names_of};

use crate::exprs::{add_text, add_variable, boxed, call_on, constant, session};
use jv_tree::{Expr, SessionCall, Stmt, StmtKind, TextCall};
use mg_text::{List, Memory, Place, Text};
use scr_tree::{Message, Payload};
use std::alloc::Global;
use ts_tree::TypeName;

/// The body of the method that sends a message.
#[tactic(auto, using(crate::proofs::Trees::views))]
pub fn send_body(alloc: Global, place: Place, message: &Message) -> Result<List<Stmt>, Memory>
    ensures { IfOk result (λ ss. map stmt_of ss.items ≡ send_body place message.now.peer message.now.label message.now.payload) }
{
    let args = sent_args(alloc, place, message)?;
    let call = session(alloc, place, send_call(message.payload), args)?;
    let mut body = List::new(alloc);
    add(&mut body, place, StmtKind::Eval(call))?;
    Ok(body)
}

/// The body of the method that takes a message, and answers what it carries.
#[tactic(auto, using(crate::proofs::Trees::views))]
pub fn take_body(alloc: Global, place: Place, message: &Message) -> Result<List<Stmt>, Memory>
    ensures { IfOk result (λ ss. map stmt_of ss.items ≡ take_body place message.now.peer message.now.label message.now.payload) }
{
    let args = address(alloc, place, message)?;
    let call = session(alloc, place, take_call(message.payload), args)?;
    let kind = match message.payload {
        Payload::Nothing => StmtKind::Eval(call),
        Payload::Int | Payload::Boolean | Payload::Text => StmtKind::Return(Some(call)),
    };
    let mut body = List::new(alloc);
    add(&mut body, place, kind)?;
    Ok(body)
}

// The call of the session that sends this.
fn send_call(payload: Payload) -> SessionCall
    ensures { result ≡ send_call payload }
{
    match payload {
        Payload::Nothing => SessionCall::Send,
        Payload::Int => SessionCall::SendInt,
        Payload::Boolean => SessionCall::SendBoolean,
        Payload::Text => SessionCall::SendString,
    }
}

// The call of the session that takes this.
fn take_call(payload: Payload) -> SessionCall
    ensures { result ≡ take_call payload }
{
    match payload {
        Payload::Nothing => SessionCall::Take,
        Payload::Int => SessionCall::TakeInt,
        Payload::Boolean => SessionCall::TakeBoolean,
        Payload::Text => SessionCall::TakeString,
    }
}

// The peer and the label of a message.
fn address(alloc: Global, place: Place, message: &Message) -> Result<List<Expr>, Memory>
    ensures { IfOk result (λ es. map expr_of es.items ≡ Quoted place message.now.peer ∷ (Quoted place message.now.label ∷ [])) }
{
    let mut args = List::new(alloc);
    add_text(alloc, &mut args, place, message.peer.as_str())?;
    add_text(alloc, &mut args, place, message.label.as_str())?;
    Ok(args)
}

// The peer, the label and what a message carries.
fn sent_args(alloc: Global, place: Place, message: &Message) -> Result<List<Expr>, Memory>
    ensures { IfOk result (λ es. map expr_of es.items ≡ Quoted place message.now.peer ∷
        (Quoted place message.now.label ∷ sent place message.now.payload)) }
{
    let mut args = address(alloc, place, message)?;
    if message.payload == Payload::Nothing {
        return Ok(args);
    }
    add_variable(alloc, &mut args, place, "value")?;
    Ok(args)
}

/// The body of the method that looks which branch a peer has taken.
pub fn look_body(
    alloc: Global,
    place: Place,
    of: &str,
    peer: &str,
    labels: &[&Text],
) -> Result<List<Stmt>, Memory>
    ensures { IfOk result (λ ss. map stmt_of ss.items ≡ look_body place of.now peer.now (names_of labels.now)) }
{
    let mut body = List::new(alloc);
    add_found(alloc, &mut body, place, peer)?;
    add_tests(alloc, &mut body, place, of, labels)?;
    add_refusal(alloc, &mut body, place, peer)?;
    add_first(alloc, &mut body, place, of, labels)?;
    Ok(body)
}

// Appends a statement.
#[tactic(auto, using(crate::proofs::Trees::views))]
fn add(body: &mut List<Stmt>, place: Place, kind: StmtKind) -> Result<(), Memory>
    ensures { OnOk result (map stmt_of body.new.items ≡ map stmt_of body.old.items ++ stmt_kind_of kind place ∷ []) }
{
    body.push(Stmt { place, kind })
}

// Appends that the session is asked for the label that a peer has sent.
#[tactic(auto, using(crate::proofs::Trees::views))]
fn add_found(alloc: Global, body: &mut List<Stmt>, place: Place, peer: &str) -> Result<(), Memory>
    ensures { OnOk result (map stmt_of body.new.items ≡ map stmt_of body.old.items ++ found_by place peer.now ∷ []) }
{
    let name = Text::of(alloc, "found")?;
    let mut args = List::new(alloc);
    add_text(alloc, &mut args, place, peer)?;
    let call = session(alloc, place, SessionCall::Look, args)?;
    add(body, place, StmtKind::Local(TypeName::Text, name, call))
}

// Appends that the label that a peer has sent is refused.
#[tactic(auto, using(crate::proofs::Trees::views))]
fn add_refusal(alloc: Global, body: &mut List<Stmt>, place: Place, peer: &str) -> Result<(), Memory>
    ensures { OnOk result (map stmt_of body.new.items ≡ map stmt_of body.old.items ++ refusal place peer.now ∷ []) }
{
    let mut args = List::new(alloc);
    add_text(alloc, &mut args, place, peer)?;
    add_variable(alloc, &mut args, place, "found")?;
    let call = session(alloc, place, SessionCall::Refuse, args)?;
    add(body, place, StmtKind::Eval(call))
}

// Appends a test for each label.
#[tactic(auto, using(crate::proofs::Trees::test_steps))]
fn add_tests(
    alloc: Global,
    body: &mut List<Stmt>,
    place: Place,
    of: &str,
    labels: &[&Text],
) -> Result<(), Memory>
    ensures { OnOk result (map stmt_of body.new.items ≡ map stmt_of body.old.items ++ map (label_test place of.now) (names_of labels.now)) }
{
    for label in labels {
        add_test(alloc, body, place, of, label.as_str())?;
    }
    Ok(())
}

// Appends that a label is answered if it was found.
#[tactic(auto, using(crate::proofs::Trees::views))]
fn add_test(
    alloc: Global,
    body: &mut List<Stmt>,
    place: Place,
    of: &str,
    label: &str,
) -> Result<(), Memory>
    ensures { OnOk result (map stmt_of body.new.items ≡ map stmt_of body.old.items ++ label_test place of.now label.now ∷ []) }
{
    let then = answering(alloc, place, of, label)?;
    let mut args = List::new(alloc);
    add_text(alloc, &mut args, place, label)?;
    let equals = TextCall::Equals.method().name;
    let test = call_on(alloc, place, "found", equals, args)?;
    add(body, place, StmtKind::If(test, then, None))
}

// A block that answers a label.
#[tactic(auto, using(crate::proofs::Trees::views))]
fn answering(alloc: Global, place: Place, of: &str, label: &str) -> Result<Box<Stmt>, Memory>
    ensures { IfOk result (λ b. stmt_of b.value
        ≡ Block place (Then (Return place (There (constant place of.now label.now))) NoStmt) place) }
{
    let answer = constant(alloc, place, of, label)?;
    let mut block = List::new(alloc);
    add(&mut block, place, StmtKind::Return(Some(answer)))?;
    let kind = StmtKind::Block(block, place);
    boxed(alloc, Stmt { place, kind })
}

// Appends that the first label is answered.
#[tactic(auto, using(crate::proofs::Trees::views))]
fn add_first(
    alloc: Global,
    body: &mut List<Stmt>,
    place: Place,
    of: &str,
    labels: &[&Text],
) -> Result<(), Memory>
    ensures { OnOk result (map stmt_of body.new.items ≡ map stmt_of body.old.items ++ first_label place of.now (names_of labels.now)) }
{
    let Some((first, _)) = labels.split_first() else {
        return Ok(());
    };
    let answer = constant(alloc, place, of, first.as_str())?;
    add(body, place, StmtKind::Return(Some(answer)))
}
