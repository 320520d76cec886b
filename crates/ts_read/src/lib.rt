//! Reads the text of a typestate file, and prints a typestate.
//! The answer is the typestate that the bytes spell, or the fault of the lowest number at its first place.
#![tactic(auto)]

mod blame;
mod build;
mod condition;
mod fault;
mod judge;
mod printer;
mod reading;
mod repeats;
mod signatures;
mod unknown;

ghost use Rattle.std.specs.Prelude.{◌≡◌, ℕ, List, Some, IfOk, IfErr, Err};
ghost use Rattle.ts_parse.specs.Written.{WFile};
ghost use Rattle.ts_read.specs.Layout.{layout};
ghost use Rattle.ts_read.specs.Outcome.{Answer, Spells, Outcome, answer_of, IsAnswered, HasPlace};

use crate::printer::print;
use crate::reading::read_of;
pub use condition::Condition;
pub use fault::TsFault;
use mg_read::place_within;
use mg_text::{Memory, Text};
use std::alloc::Global;
use ts_tree::Typestate;

/// Bytes that a file may hold.
pub const MAX_BYTES: usize = 1_048_576;

/// States that a file may hold.
pub const MAX_STATES: usize = 1000;

// A fault of a file, with a place of the file where it is one of the grammar.
fn fault_placed(file: u32, bytes: &[u8], fault: TsFault) -> TsFault
    ensures answer { answer_of (Err result) ≡ answer_of (Err fault) }
    ensures place { HasPlace file bytes.now result }
{
    match fault {
        TsFault::Syntax { place } => TsFault::Syntax {
            place: place_within(file, bytes, place),
        },
        fault => fault,
    }
}

// What was read of a file, with a place of the file where it is a fault of the grammar.
fn placed(file: u32, bytes: &[u8], read: Result<Typestate, TsFault>) -> Result<Typestate, TsFault>
    ensures answer { answer_of result ≡ answer_of read }
    ensures place { IfErr result (HasPlace file bytes.now) }
{
    match read {
        Ok(found) => Ok(found),
        Err(fault) => Err(fault_placed(file, bytes, fault)),
    }
}

/// Reads the typestate that the bytes of a file spell. What stands before the word `typestate`,
/// a package and imports, means nothing. `file` is the number of the file in places.
///
/// # Errors
/// The fault of the lowest number that the file has, at its first place in the text, or `Memory`.
pub fn read_typestate(alloc: Global, file: u32, bytes: &[u8]) -> Result<Typestate, TsFault>
    // What is answered is what reading the bytes gives.
    ensures answered { (a : Answer) → answer_of result ≡ Some a → Outcome file bytes.now a }
    // What reading the bytes gives is answered, unless memory runs out.
    ensures only { (a : Answer) → Outcome file bytes.now a → IsAnswered a result }
    // The place of Syntax is one of the file.
    ensures place { IfErr result (HasPlace file bytes.now) }
{
    placed(file, bytes, read_of(alloc, file, bytes))
}

/// Reading the bytes of a file gives one answer at most, and they spell one file at most.
pub fn one_reading()
    ensures one_outcome { (file : ℕ) (bytes : List ℕ) (a b : Answer) → Outcome file bytes a → Outcome file bytes b → a ≡ b }
    ensures one_file { (file : ℕ) (bytes : List ℕ) (w v : WFile) → Spells file bytes w → Spells file bytes v → w ≡ v }
{}

/// The text of a typestate file: a state a block, four blanks a level, a method a line.
pub fn print_typestate(alloc: Global, typestate: &Typestate) -> Result<Text, Memory>
    ensures { IfOk result (λ t. t ≡ layout typestate.now) }
{
    let mut out = String::new(alloc);
    print(&mut out, typestate)?;
    Ok(Text::from_string(out))
}
