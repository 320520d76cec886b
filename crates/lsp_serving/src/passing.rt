//! The frames that have come.

ghost use Rattle.std.specs.Prelude.{◌≡◌, ◌≢◌, IfOk, IfErr, OnOk, MatchOption};
ghost use Rattle.lsp_frames.specs.Frames.{IsFrame};
ghost use Rattle.lsp_serving.specs.declared.ending.Ending.TheVariants.{Input};
ghost use Rattle.lsp_serving.specs.Serving.{body_limit};
ghost use Rattle.lsp_serving.specs.Endings.{GoesOn, IsPart, Ends};
ghost use Rattle.lsp_serving.specs.inner.Passing.{IsStopped, IsExit, IsTurned, Answers, Passes};

use crate::Ending;
use crate::folders::Folders;
use crate::hearing::BODY_LIMIT;
use crate::speaking::speak;
use crate::turning::turn;
use lsp_core::Phase;
use lsp_frames::{FrameFault, Frames};
use lsp_server::Session;
use mg_io::{IoFault, Sink};
use mg_text::{Bytes, Memory};
use std::alloc::Global;

// The next body. None where more bytes are wanted.
fn next_body(alloc: Global, frames: &mut Frames) -> Result<Option<Bytes>, Ending>
    ensures ok { IfOk result (λ o. MatchOption o (IsPart frames.old × (frames.new ≡ frames.old))
        (λ body. IsFrame body_limit frames.old body frames.new)) }
    ensures err { IfErr result (λ e. IsStopped e frames.old × (frames.new ≡ frames.old)) }
{
    match frames.next(alloc, BODY_LIMIT) {
        Ok(body) => Ok(body),
        Err(FrameFault::Refused { .. }) => Err(Ending::NoFrame),
        Err(FrameFault::Memory) => Err(Ending::Memory),
    }
}

// What the message of a body comes to, as frames.
fn turned<F: Folders>(
    alloc: Global,
    session: &mut Session,
    folders: &mut F,
    body: &[u8],
) -> Result<Bytes, Memory>
    ensures told { IfOk result (λ bytes. IsTurned (F.known folders.old) session.old body.now bytes session.new) }
    ensures known { F.known folders.new ≡ F.known folders.old }
{
    let told = turn(alloc, session, folders, body)?;
    speak(alloc, told.as_slice())
}

// Puts what the message of a body comes to.
fn answer<F: Folders, S: Sink>(
    alloc: Global,
    session: &mut Session,
    folders: &mut F,
    sink: &mut S,
    body: &[u8],
) -> Result<(), Ending>
    ensures put { Answers (F.known folders.old) session.old body.now session.new (S.bytes sink.old) (S.bytes sink.new) result }
    ensures known { F.known folders.new ≡ F.known folders.old }
{
    let frames = match turned(alloc, session, folders, body) {
        Ok(frames) => frames,
        Err(Memory) => return Err(Ending::Memory),
    };
    match sink.put(frames.as_slice()) {
        Ok(()) => Ok(()),
        Err(IoFault::Failed) => Err(Ending::Unwritten),
        Err(IoFault::Memory) => Err(Ending::Memory),
    }
}

// Whether the client has told the server to end, and how.
fn ended(session: &Session) -> Option<Ending>
    ensures { MatchOption result (GoesOn session.now) (IsExit session.now) }
{
    match session.phase() {
        Phase::Gone { clean } => Some(Ending::Exit { clean }),
        _ => None,
    }
}

/// Takes what frames have come, each in its turn.
///
/// # Errors
/// How serving ends, where it does.
pub fn pass<F: Folders, S: Sink>(
    alloc: Global,
    session: &mut Session,
    folders: &mut F,
    sink: &mut S,
    frames: &mut Frames,
) -> Result<(), Ending>
    requires { GoesOn session.old }
    ensures ok { OnOk result (Passes (F.known folders.old) session.old frames.old (S.bytes sink.old) session.new frames.new (S.bytes sink.new)) }
    ensures part { OnOk result (IsPart frames.new) }
    ensures err { IfErr result (λ e. Ends (F.known folders.old) session.old frames.old (S.bytes sink.old) (S.bytes sink.new) e × (e ≢ Input)) }
    ensures known { F.known folders.new ≡ F.known folders.old }
{
    while let Some(body) = next_body(alloc, frames)? {
        answer(alloc, session, folders, sink, body.as_slice())?;
        if let Some(ending) = ended(session) {
            return Err(ending);
        }
    }
    Ok(())
}
