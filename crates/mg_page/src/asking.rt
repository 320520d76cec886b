//! What is asked, in bytes: words, and files by their names.

ghost use Rattle.std.specs.Prelude.{IfOk, IsErrOf};
ghost use Rattle.mg_page.specs.Pieces.{IsText, IsFile, AreAll, BeginWithNone, AreNone};

use crate::file::File;
use crate::pieces::first_piece;
use mg_text::{List, Memory, Text};
use std::alloc::Global;

/// Why there is no answer.
#[derive(Clone, Copy, PartialEq, Eq)]
pub enum AskFault {
    /// The bytes ask nothing: they are no pieces, or a word or a name is no UTF-8.
    Form,
    /// Want of memory.
    Memory,
}

impl From<Memory> for AskFault {
    ghost use Rattle.std.specs.Prelude.{◌≡◌};
    ghost use Rattle.mg_page.specs.declared.asking.AskFault.TheVariants as E;

    ghost from_gives = { λ _ e. e ≡ E.Memory };

    fn from(_memory: Memory) -> AskFault {
        AskFault::Memory
    }
}

/// The words that stand in bytes.
pub(crate) fn words_in(alloc: Global, bytes: &[u8]) -> Result<List<Text>, AskFault>
    ensures ok { IfOk result (λ l. AreAll IsText bytes.now l.items) }
    ensures form { IsErrOf result AskFault.Form → AreNone IsText bytes.now }
{
    let mut words = List::new(alloc);
    let mut rest = bytes;
    while !rest.is_empty() {
        let (word, behind) = first_text(alloc, rest)?;
        words.push(word)?;
        rest = behind;
    }
    Ok(words)
}

/// The files that stand in bytes.
pub(crate) fn files_in(alloc: Global, bytes: &[u8]) -> Result<List<File>, AskFault>
    ensures ok { IfOk result (λ l. AreAll IsFile bytes.now l.items) }
    ensures form { IsErrOf result AskFault.Form → AreNone IsFile bytes.now }
{
    let mut files = List::new(alloc);
    let mut rest = bytes;
    while !rest.is_empty() {
        let (file, behind) = first_file(alloc, rest)?;
        files.push(file)?;
        rest = behind;
    }
    Ok(files)
}

// The text that the bytes begin with, and the rest behind it.
fn first_text(alloc: Global, bytes: &[u8]) -> Result<(Text, &[u8]), AskFault>
    ensures ok { IfOk result (λ x. IsText bytes.now x.0 x.1.now) }
    ensures form { IsErrOf result AskFault.Form → BeginWithNone IsText bytes.now }
{
    let (text, rest) = first_piece(bytes)?;
    match str::from_utf8(text) {
        Ok(text) => {
            let text = Text::of(alloc, text)?;
            Ok((text, rest))
        }
        Err(_) => Err(AskFault::Form),
    }
}

// The file that the bytes begin with, and the rest behind it.
fn first_file(alloc: Global, bytes: &[u8]) -> Result<(File, &[u8]), AskFault>
    ensures ok { IfOk result (λ x. IsFile bytes.now x.0 x.1.now) }
    ensures form { IsErrOf result AskFault.Form → BeginWithNone IsFile bytes.now }
{
    let (name, middle) = first_piece(bytes)?;
    let (content, rest) = first_piece(middle)?;
    match str::from_utf8(name) {
        Ok(name) => {
            let file = File::of(alloc, name, content)?;
            Ok((file, rest))
        }
        Err(_) => Err(AskFault::Form),
    }
}
