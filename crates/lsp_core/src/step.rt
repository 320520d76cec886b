//! What a message comes to.

ghost use Rattle.std.specs.Prelude.{◌≡◌};
ghost use Rattle.lsp_core.specs.Steps.{refused, running_step, fresh_step, call_step, ill_step, running_notice_step, encoding_of, call_encoding};

use crate::phase::Phase;
use lsp_messages::{Answer, Call, Code, Id, Notice, Outgoing, Question};
use lsp_text::Encoding;
use mg_text::Text;

/// What a message comes to.
#[derive(Drop)]
pub enum Step {
    /// Nothing is to be told.
    Quiet,
    /// This is to be told.
    Say(Outgoing),
    /// What is wrong with the program of this document is to be told.
    Judge(Text),
    /// A request is to be answered by the documents as they stand.
    Ask {
        /// Its id.
        id: Id,
        /// What is asked.
        question: Question,
    },
}

// In what lines are counted, for a client that can count in bytes of UTF-8 or can't.
pub(crate) fn encoding_of(utf8: bool) -> Encoding
    ensures { result ≡ encoding_of utf8 }
{
    if utf8 {
        Encoding::Utf8
    } else {
        Encoding::Utf16
    }
}

// How lines are counted behind a request.
pub(crate) fn counted(phase: Phase, encoding: Encoding, call: &Call) -> Encoding
    ensures { result ≡ call_encoding phase encoding call.now }
{
    match (phase, call) {
        (Phase::Fresh, Call::Initialize { utf8 }) => encoding_of(*utf8),
        _ => encoding,
    }
}

// A request that isn't answered.
fn refused(id: Id, code: Code) -> Step
    ensures { result ≡ refused id code }
{
    Step::Say(Outgoing::Refused { id: Some(id), code })
}

// What a request comes to while the server runs.
fn running(id: Id, call: Call) -> Step
    ensures { result ≡ running_step id call }
{
    match call {
        Call::Initialize { .. } => refused(id, Code::InvalidRequest),
        Call::Shutdown => Step::Say(Outgoing::Answered {
            id,
            answer: Answer::Nothing,
        }),
        Call::Ask(question) => Step::Ask { id, question },
        Call::Unknown => refused(id, Code::MethodNotFound),
        Call::BadParameters => refused(id, Code::InvalidParams),
    }
}

// What a request comes to before `initialize`, and with it.
fn fresh(id: Id, call: Call) -> Step
    ensures { result ≡ fresh_step id call }
{
    match call {
        Call::Initialize { utf8 } => Step::Say(Outgoing::Answered {
            id,
            answer: Answer::Capabilities(encoding_of(utf8)),
        }),
        _ => refused(id, Code::ServerNotInitialized),
    }
}

// What a request comes to.
pub(crate) fn called(phase: Phase, id: Id, call: Call) -> Step
    ensures { result ≡ call_step phase id call }
{
    match phase {
        Phase::Fresh => fresh(id, call),
        Phase::Running => running(id, call),
        Phase::Down => refused(id, Code::InvalidRequest),
        Phase::Gone { .. } => Step::Quiet,
    }
}

// What a notification comes to while the server runs.
pub(crate) fn noticed(notice: Notice) -> Step
    ensures { result ≡ running_notice_step notice }
{
    match notice {
        Notice::Open { document, .. } => Step::Judge(document),
        Notice::Change { document, .. } => Step::Judge(document),
        Notice::Save(document) => Step::Judge(document),
        Notice::Close(document) => Step::Judge(document),
        _ => Step::Quiet,
    }
}

// What comes of that which is no message.
pub(crate) fn ill(phase: Phase, id: Option<Id>, code: Code) -> Step
    ensures { result ≡ ill_step phase id code }
{
    match phase {
        Phase::Gone { .. } => Step::Quiet,
        _ => Step::Say(Outgoing::Refused { id, code }),
    }
}
