//! The program from bytes to bytes.

ghost use Rattle.std.specs.Prelude.{◌≡◌, ℕ, List, ◌++◌, IfOk, IsErrOf, OnOk};
ghost use Rattle.mg_text.specs.Call.{Name};
ghost use Rattle.mg_page.specs.Told.{Told};
ghost use Rattle.mg_page.specs.Pieces.{files_bytes};
ghost use Rattle.mg_page.specs.Answer.{Asks, Responds, answer_bytes};

use crate::answering::{Outcome, answer};
use crate::asking::{AskFault, files_in, words_in};
use crate::file::File;
use crate::pieces::put_piece;
use mg_text::{Bytes, Memory};
use std::alloc::Global;

/// The answer to what two rows of bytes ask: words, and files by their names, each piece behind its length in four bytes.
/// `Form` comes exactly where they ask nothing, and memory doesn't lack before.
pub fn respond(alloc: Global, words: &[u8], files: &[u8]) -> Result<Bytes, AskFault>
    ensures ok { IfOk result (λ bytes. Responds words.now files.now bytes) }
    ensures form { IsErrOf result AskFault.Form
        → (meant : List Name) → (told : List Told) → Asks words.now files.now meant told → ⊥ }
{
    let words = words_in(alloc, words)?;
    let files = files_in(alloc, files)?;
    let answer = answer(alloc, words.as_slice(), files)?;
    let bytes = spelled(alloc, &answer)?;
    Ok(bytes)
}

// An answer in bytes.
fn spelled(alloc: Global, answer: &Outcome) -> Result<Bytes, Memory>
    ensures { IfOk result (λ bytes. bytes ≡ answer_bytes answer.now) }
{
    let mut out = Bytes::of(alloc, &[answer.status.number()])?;
    put_piece(&mut out, answer.out.as_slice())?;
    put_piece(&mut out, answer.err.as_slice())?;
    put_files(&mut out, answer.files.as_slice())?;
    Ok(out)
}

// Appends files, of each its name and what it holds.
fn put_files(out: &mut Bytes, files: &[File]) -> Result<(), Memory>
    ensures { OnOk result (out.new ≡ out.old ++ files_bytes files.now) }
{
    for file in files {
        put_piece(out, file.name().as_bytes())?;
        put_piece(out, file.content())?;
    }
    Ok(())
}
