//! Questions about documents.

ghost use Rattle.std.specs.Prelude.{◌≡◌, option_map, IfOk};
ghost use Rattle.std.specs.List.{position};
ghost use Rattle.std.specs.Str.{bytes_eq};
ghost use Rattle.lsp_server.specs.Answering.{asked_about, Answers};
ghost use Rattle.lsp_server.specs.inner.Fitting.{IsFit};

use lsp_answers::answer;
use lsp_folder::Program;
use lsp_messages::{Answer, Question};
use lsp_text::Encoding;
use mg_text::{Memory, Text};
use std::alloc::Global;

/// The document that a question is about.
pub fn asked_about(question: &Question) -> &Text
    ensures { result.now ≡ asked_about question.now }
{
    match question {
        Question::Hover(point) => &point.document,
        Question::Completion(point) => &point.document,
        Question::Definition(point) => &point.document,
        Question::Hints { document, .. } => document,
        Question::Symbols(document) => document,
        Question::Diagram(document) => document,
    }
}

// The number of a document among sources.
fn number_of(names: &[Text], document: &Text) -> Option<usize>
    ensures { result ≡ position (λ name. bytes_eq name document.now) names.now }
{
    names
        .iter()
        .position(|name| name.as_str() == document.as_str())
}

/// What the sources of a program say to a question, where its document is one of them, and else nothing.
///
/// # Errors
/// `Memory` only, also where there are 2^32 sources or more.
pub fn answer_of(
    alloc: Global,
    encoding: Encoding,
    program: &Program,
    question: &Question,
) -> Result<Answer, Memory>
    requires { IsFit program.now }
    ensures { IfOk result (Answers encoding program.now question.now) }
{
    let names = program.names.as_slice();
    let Ok(_count) = u32::try_from(names.len()) else {
        return Err(Memory);
    };
    match number_of(names, asked_about(question)) {
        None => Ok(Answer::Nothing),
        Some(file) => answer(
            alloc,
            names,
            program.contents.as_slice(),
            encoding,
            file as u32,
            question,
        ),
    }
}
