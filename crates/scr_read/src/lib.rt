//! Reads the text of a Scribble local protocol, and prints a protocol.
//! What reading answers is the protocol that the bytes spell, or the fault of the lowest number at its first place.
#![tactic(auto)]

ghost use Rattle.std.specs.Prelude.{◌≡◌, ◌≤◌, ℕ, List, length, Some, IfErr, Err};
ghost use Rattle.scr_tree.specs.Written.{WrittenTree};
ghost use Rattle.scr_read.specs.Spelling.{Spells};
ghost use Rattle.scr_read.specs.Outcome.{Answer, Outcome, answer_of, IsAnswered, HasPlace};
ghost use Rattle.scr_read.specs.inner.Stages.{Stage, IsProtocol};

mod fault;
mod parts;
mod print;
mod text;
mod verdict;
mod words;

use crate::text::written_of;
use crate::verdict::{protocol_of, refusal};
pub use fault::ScrFault;
use mg_read::place_within;
use mg_text::Place;
pub use parts::local_of;
pub use print::print_local;
use scr_judge::first_fault;
pub use scr_tree::{Direction, Local, Message, Part, Payload, Statement};
use std::alloc::Global;
pub use words::{ProtocolKind, first_unsupported};

/// Bytes that a file may hold.
pub const MAX_BYTES: usize = 1_048_576;

// The protocol of a file that isn't too large.
fn judged_of(alloc: Global, file: u32, bytes: &[u8]) -> Result<Local, ScrFault>
    requires { length bytes.now ≤ 1048576 }
    ensures { Stage file bytes.now (IsProtocol file bytes.now) result }
{
    let written = written_of(alloc, file, bytes)?;
    match first_fault(alloc, file, &written)? {
        Some(fault) => Err(refusal(fault)),
        None => Ok(protocol_of(alloc, file, written)?),
    }
}

// The protocol of a file.
fn read_of(alloc: Global, file: u32, bytes: &[u8]) -> Result<Local, ScrFault>
    ensures { Stage file bytes.now (IsProtocol file bytes.now) result }
{
    if bytes.len() > MAX_BYTES {
        let place = Place::start(file);
        return Err(ScrFault::TooLarge { place });
    }
    judged_of(alloc, file, bytes)
}

// A fault of a file, with a place of the file where it is one of the grammar.
fn fault_placed(file: u32, bytes: &[u8], fault: ScrFault) -> ScrFault
    ensures answer { answer_of (Err result) ≡ answer_of (Err fault) }
    ensures place { HasPlace file bytes.now result }
{
    match fault {
        ScrFault::Syntax { place } => ScrFault::Syntax {
            place: place_within(file, bytes, place),
        },
        fault => fault,
    }
}

// What was read of a file, with a place of the file where it is a fault of the grammar.
fn placed(file: u32, bytes: &[u8], read: Result<Local, ScrFault>) -> Result<Local, ScrFault>
    ensures answer { answer_of result ≡ answer_of read }
    ensures place { IfErr result (HasPlace file bytes.now) }
{
    match read {
        Ok(found) => Ok(found),
        Err(fault) => Err(fault_placed(file, bytes, fault)),
    }
}

/// Reads the local protocol that the bytes of a file spell, with the place of each statement.
///
/// # Errors
/// The fault of the lowest number that the file has, at its first place in the text, or `Memory`.
pub fn read_local(alloc: Global, file: u32, bytes: &[u8]) -> Result<Local, ScrFault>
    // What is answered is what reading the bytes gives.
    ensures answered { (a : Answer) → answer_of result ≡ Some a → Outcome file bytes.now a }
    // What reading the bytes gives is answered, unless memory runs out.
    ensures only { (a : Answer) → Outcome file bytes.now a → IsAnswered a result }
    // The place of Syntax is one of the file.
    ensures place { IfErr result (HasPlace file bytes.now) }
{
    placed(file, bytes, read_of(alloc, file, bytes))
}

/// Reading the bytes of a file gives one answer at most, and they spell one file at most.
pub fn one_reading()
    ensures one_outcome { (file : ℕ) (bytes : List ℕ) (a b : Answer) → Outcome file bytes a → Outcome file bytes b → a ≡ b }
    ensures one_file { (file : ℕ) (bytes : List ℕ) (w v : WrittenTree) → Spells file bytes w → Spells file bytes v → w ≡ v }
{}
