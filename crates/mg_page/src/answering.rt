//! The program as a function: words and files in, what it gives out.

ghost use Rattle.std.specs.Prelude.{IfOk};
ghost use Rattle.mg_page.specs.Answer.{Answers};

use crate::file::File;
use crate::told_folder::ToldFolder;
use crate::told_sink::ToldSink;
use mg_delivery::Status;
use mg_text::{Bytes, List, Memory, Text};
use mg_top::mungo;
use std::alloc::Global;

/// What the program gives: how it ended, what it put on standard output and on standard error, and the files that then
/// stand, those that were given first; of two of one name the later stands.
#[derive(Drop)]
pub struct Outcome {
    pub status: Status,
    pub out: Bytes,
    pub err: Bytes,
    pub files: List<File>,
}

/// Runs the command that the words are over these files, where nothing outside fails.
/// The contract carries what the program promises, of told contents. It lacks memory, or gives an answer.
pub fn answer(alloc: Global, words: &[Text], files: List<File>) -> Result<Outcome, Memory>
    ensures { IfOk result (λ a. Answers words.now files.items a) }
{
    let mut folder = ToldFolder::of(alloc, files)?;
    let mut out = ToldSink::new(alloc);
    let mut err = ToldSink::new(alloc);
    let status = mungo::<ToldFolder, ToldSink, ToldSink>(
        alloc,
        words,
        &mut folder,
        &mut out,
        &mut err,
    );
    Ok(Outcome {
        status,
        out: out.into_bytes(),
        err: err.into_bytes(),
        files: folder.into_files(),
    })
}
