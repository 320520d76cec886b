//! Reads the text of a Java source.
//! The answer is the file that the bytes spell, or the first of its faults.
#![tactic(auto)]

ghost use Rattle.std.specs.Prelude.{◌≡◌, ℕ, List, Some, IfErr, Err};
ghost use Rattle.jv_tree.specs.Source.{File as Tree};
ghost use Rattle.jv_read.specs.Spelling.{Spells};
ghost use Rattle.jv_read.specs.Outcome.{Answer, Outcome, answer_of, IsAnswered, HasPlace};
ghost use Rattle.jv_read.specs.inner.Stages.{Stage, IsRead};

mod fault;

pub use fault::JavaFault;
use jv_lex::tokens;
use jv_parse::parse_file;
pub use jv_tree::File;
use mg_read::place_within;
use std::alloc::Global;

// The file that the bytes spell.
fn read_of(alloc: Global, file: u32, bytes: &[u8]) -> Result<File, JavaFault>
    ensures { Stage file bytes.now (IsRead file bytes.now) result }
{
    let tokens = tokens(alloc, file, bytes)?;
    Ok(parse_file(alloc, file, tokens.as_slice())?)
}

// A fault of a file, with a place of the file where it is one of the grammar.
fn fault_placed(file: u32, bytes: &[u8], fault: JavaFault) -> JavaFault
    ensures answer { answer_of (Err result) ≡ answer_of (Err fault) }
    ensures place { HasPlace file bytes.now result }
{
    match fault {
        JavaFault::Syntax { place } => JavaFault::Syntax {
            place: place_within(file, bytes, place),
        },
        fault => fault,
    }
}

// What was read of a file, with a place of the file where it is a fault of the grammar.
fn placed(file: u32, bytes: &[u8], read: Result<File, JavaFault>) -> Result<File, JavaFault>
    ensures answer { answer_of result ≡ answer_of read }
    ensures place { IfErr result (HasPlace file bytes.now) }
{
    match read {
        Ok(found) => Ok(found),
        Err(fault) => Err(fault_placed(file, bytes, fault)),
    }
}

/// Reads the Java source that the bytes of a file spell (Java Language Specification, chapters 3
/// and 19, the part that is supported), with the place of each of its parts.
///
/// # Errors
/// `TooLarge` for over 1,048,576 bytes. Else the first in the text of `BadByte`, `OpenComment`,
/// `OpenText`, `BadEscape` and `BadNumber`; else `Unsupported` with the first token that isn't
/// supported; else `Syntax`. `Memory` where memory is wanted.
pub fn read_java(alloc: Global, file: u32, bytes: &[u8]) -> Result<File, JavaFault>
    // What is answered is what reading the bytes gives.
    ensures answered { (a : Answer) → answer_of result ≡ Some a → Outcome file bytes.now a }
    // What reading the bytes gives is answered, unless memory runs out.
    ensures only { (a : Answer) → Outcome file bytes.now a → IsAnswered a result }
    // The place of Syntax is one of the file.
    ensures place { IfErr result (HasPlace file bytes.now) }
{
    placed(file, bytes, read_of(alloc, file, bytes))
}

/// Reading the bytes of a file gives one answer at most, and they spell one file at most.
pub fn one_reading()
    ensures one_outcome { (file : ℕ) (bytes : List ℕ) (a b : Answer) → Outcome file bytes a → Outcome file bytes b → a ≡ b }
    ensures one_file { (file : ℕ) (bytes : List ℕ) (f g : Tree) → Spells file bytes f → Spells file bytes g → f ≡ g }
{}
