//! The command `conform`: whether the calls of a file follow a local protocol.

ghost use Rattle.std.specs.Prelude.{◌≡◌, ◌∷◌, [], IfOk, codes, map};
ghost use Rattle.scr_tree.specs.Local.{tree_of};
ghost use Rattle.mg_calls.specs.Answer.{call_of as call_at};
ghost use Rattle.scr_trace.specs.Walking.{call_said};
ghost use Rattle.mg_sources.specs.Files.{EndsWith};
ghost use Rattle.mg_refusal.specs.Order.{IsStopOf};
ghost use Rattle.mg_words.specs.Words.{Word, Conform};
ghost use Rattle.mg_top.specs.inner.Preparing.{IsAnswered, IsCarried, calls_refusal};

use mg_calls::{CallLine, CallsFault, read_calls};
use mg_delivery::{Delivery, Status, lines};
use mg_refusal::Stop;
use mg_sources::read_protocol;
use mg_text::Memory;
use scr_trace::{Call, StepFault, Walk};
use scr_tree::Local;
use std::alloc::Global;

/// Whether the listed calls follow the protocol, or the first refusal.
pub fn conform(alloc: Global, bytes: &[u8], listed: &[u8]) -> Result<Delivery, Stop>
    ensures { (protocol calls : Word) → EndsWith (codes ".scr") protocol
        → IsCarried (Conform (protocol ∷ calls ∷ [])) (bytes.now ∷ listed.now ∷ []) result }
{
    let local = read_protocol(alloc, 0, bytes)?;
    let list = match read_calls(alloc, 1, listed) {
        Ok(list) => list,
        Err(fault) => return Err(stop_of(fault).in_file(1)),
    };
    Ok(follow(alloc, &local, list.as_slice())?)
}

// The refusal of the file of calls. Want of memory stays that.
fn stop_of(fault: CallsFault) -> Stop
    ensures { IsStopOf (λ wanted r. r ≡ wanted) (calls_refusal fault) result }
{
    match fault {
        CallsFault::TooLarge { place } => Stop::at("TooLarge", place),
        CallsFault::BadLine { place } => Stop::at("BadLine", place),
        CallsFault::Memory => Stop::Memory,
    }
}

// Walks along the protocol, call by call, up to the first that isn't offered.
fn follow(alloc: Global, local: &Local, calls: &[CallLine<'_>]) -> Result<Delivery, Memory>
    ensures { IfOk result (λ d. IsAnswered (tree_of local.now) (map call_at calls.now) d.actions.items d.status) }
{
    let mut walk = Walk::new(alloc, local)?;
    for line in calls {
        let call = call_of(line);
        match walk.step(&call) {
            Ok(()) => {}
            Err(StepFault::NotOffered) => {
                let text = lines::not_offered(alloc, line.line)?;
                return Delivery::printed(alloc, text.as_str(), Status::Refused);
            }
            Err(StepFault::Memory) => return Err(Memory),
        }
    }
    if walk.done() {
        Delivery::printed(alloc, "complete\n", Status::Done)
    } else {
        Delivery::printed(alloc, "open\n", Status::Done)
    }
}

// The call of a line.
fn call_of<'a>(line: &CallLine<'a>) -> Call<'a>
    ensures { call_said result ≡ (call_at line.now).call }
{
    Call {
        method: line.method,
        answer: line.answer,
    }
}
