//! Separates the text of a Java source into tokens, each with its place.
//! What is found are the bytes' tokens, and where there are none, the first fault in the text.
#![tactic(auto)]

ghost use Rattle.std.specs.Prelude.{◌≡◌, ℕ, List};
ghost use Rattle.jv_lex.specs.Outcome.{Lexing, Outcome, Answers};

mod fault;
mod front;
mod scan;
mod signs;

pub use fault::LexFault;
use jv_tree::Token;
use mg_text::Place;
use std::alloc::Global;

const MOST_BYTES: usize = 1_048_576;

/// The tokens of the bytes of a file, each with its place: words, numbers, texts with their
/// escapes read, and signs.
///
/// # Errors
/// `TooLarge` for over 1,048,576 bytes. Else the first fault in the text: `BadByte` where nothing
/// begins, an escape of Unicode begins in a comment, or the bytes stop to be UTF-8; `OpenComment`,
/// `OpenText`, `BadEscape` or `BadNumber`. `Memory` where memory is wanted.
pub fn tokens(alloc: Global, file: u32, bytes: &[u8]) -> Result<mg_text::List<Token>, LexFault>
    // What is answered is so, want of memory aside.
    ensures found { Answers result (Outcome file bytes.now) }
    // What is so is answered, unless memory runs out.
    ensures only { (r : Lexing) → Outcome file bytes.now r → Answers result (λ a. a ≡ r) }
{
    if bytes.len() > MOST_BYTES {
        return Err(LexFault::TooLarge {
            place: Place::start(file),
        });
    }
    scan::scan(alloc, file, bytes)
}

/// No bytes have two answers.
pub fn one_lexing()
    ensures { (file : ℕ) (bytes : List ℕ) (r s : Lexing) → Outcome file bytes r → Outcome file bytes s → r ≡ s }
{}
