//! One turn: what a message comes to.

ghost use Rattle.std.specs.Prelude.{◌≡◌, ◌∷◌, [], IfOk};
ghost use Rattle.lsp_core.specs.declared.step.Step.TheVariants.{Judge, Ask};
ghost use Rattle.lsp_server.specs.Turns.{Comes};
ghost use Rattle.lsp_serving.specs.inner.Passing.{TurnsBody};

use crate::folders::Folders;
use crate::hearing::hear;
use lsp_core::Step;
use lsp_messages::{Id, Outgoing, Question};
use lsp_server::{Session, asked_about};
use mg_text::{Memory, Text};
use std::alloc::Global;

// One message.
fn single(alloc: Global, message: Outgoing) -> Result<Vec<Outgoing>, Memory>
    ensures { IfOk result (λ v. v.items ≡ message ∷ []) }
{
    let mut told = Vec::new(alloc);
    told.push(message)?;
    Ok(told)
}

// What is to be told of the program of a document.
fn judged<F: Folders>(
    alloc: Global,
    session: &mut Session,
    folders: &mut F,
    document: &Text,
) -> Result<Vec<Outgoing>, Memory>
    ensures told { IfOk result (λ v. Comes (F.known folders.old) session.old (Judge document.now) v.items session.new) }
    ensures known { F.known folders.new ≡ F.known folders.old }
{
    let files = folders.files_of(alloc, document.as_str())?;
    session.judge(alloc, document.as_str(), files.as_slice())
}

// The response to a question.
fn answered<F: Folders>(
    alloc: Global,
    session: &Session,
    folders: &mut F,
    id: Id,
    question: &Question,
) -> Result<Outgoing, Memory>
    ensures told { IfOk result (λ m. Comes (F.known folders.old) session.now (Ask id question.now) (m ∷ []) session.now) }
    ensures known { F.known folders.new ≡ F.known folders.old }
{
    let files = folders.files_of(alloc, asked_about(question).as_str())?;
    session.answer(alloc, id, question, files.as_slice())
}

// What a step tells.
fn tell<F: Folders>(
    alloc: Global,
    session: &mut Session,
    folders: &mut F,
    step: Step,
) -> Result<Vec<Outgoing>, Memory>
    ensures told { IfOk result (λ v. Comes (F.known folders.old) session.old step v.items session.new) }
    ensures known { F.known folders.new ≡ F.known folders.old }
{
    match step {
        Step::Quiet => Ok(Vec::new(alloc)),
        Step::Say(message) => single(alloc, message),
        Step::Judge(document) => judged(alloc, session, folders, &document),
        Step::Ask { id, question } => {
            let message = answered(alloc, session, folders, id, &question)?;
            single(alloc, message)
        }
    }
}

/// What the message of a body comes to.
///
/// # Errors
/// `Memory` only. The session may then have taken a part of the message.
pub fn turn<F: Folders>(
    alloc: Global,
    session: &mut Session,
    folders: &mut F,
    body: &[u8],
) -> Result<Vec<Outgoing>, Memory>
    ensures told { IfOk result (λ v. TurnsBody (F.known folders.old) session.old body.now v.items session.new) }
    ensures known { F.known folders.new ≡ F.known folders.old }
{
    let message = hear(alloc, body)?;
    let step = session.step(alloc, message)?;
    tell(alloc, session, folders, step)
}
