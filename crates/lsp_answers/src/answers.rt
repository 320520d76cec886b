//! What is answered to a question about a document.

ghost use Rattle.std.specs.Prelude.{◌≡◌, ◌<◌, ◌^◌, ◌↔◌, IsTrue, IfOk, codes, length};
ghost use Rattle.mg_sources.specs.Files.{HaveKinds, EndsWith};
ghost use Rattle.lsp_answers.specs.Answers.{document_of, IsHover, AreDeclared, IsDiagram, IsAnswered};

use lsp_defined::definitions;
use lsp_drawing::drawing;
use lsp_messages::{Answer, Question};
use lsp_offers::offers;
use lsp_sights::hints;
use lsp_symbols::symbols;
use lsp_text::{Encoding, Position};
use mg_text::{Bytes, Memory, Text};
use std::alloc::Global;

// Whether a document is a Java source, by its name.
fn is_java(name: &Text) -> bool
    ensures { IsTrue result ↔ EndsWith (codes ".java") name.now }
{
    name.as_str().as_bytes().ends_with(b".java")
}

// What is shown over a position of the document of a number.
fn hover(
    alloc: Global,
    names: &[Text],
    contents: &[Bytes],
    encoding: Encoding,
    file: u32,
    position: Position,
) -> Result<Answer, Memory>
    requires same { length names.now ≡ length contents.now }
    requires count { length contents.now < 2 ^ 32 }
    requires kinds { HaveKinds names.now }
    requires file { file < length names.now }
    ensures { IfOk result (λ a. IsHover encoding names.now contents.now file position a) }
{
    if is_java(&names[file as usize]) {
        return lsp_sights::hover(alloc, names, contents, encoding, file, position);
    }
    lsp_defined::hover(alloc, names, contents, encoding, file, position)
}

// The symbols of the document of a number.
fn declared(
    alloc: Global,
    names: &[Text],
    contents: &[Bytes],
    encoding: Encoding,
    file: u32,
) -> Result<Answer, Memory>
    requires same { length names.now ≡ length contents.now }
    requires kinds { HaveKinds names.now }
    requires file { file < length names.now }
    ensures { IfOk result (λ a. AreDeclared encoding (document_of names.now contents.now file) a) }
{
    let number = file as usize;
    let symbols = symbols(alloc, &names[number], contents[number].as_slice(), encoding)?;
    Ok(Answer::Symbols(symbols))
}

// The diagram of the document of a number.
fn drawn(alloc: Global, names: &[Text], contents: &[Bytes], file: u32) -> Result<Answer, Memory>
    requires same { length names.now ≡ length contents.now }
    requires kinds { HaveKinds names.now }
    requires file { file < length names.now }
    ensures { IfOk result (λ a. IsDiagram (document_of names.now contents.now file) a) }
{
    let number = file as usize;
    match drawing(alloc, &names[number], contents[number].as_slice())? {
        Some(text) => Ok(Answer::Diagram(text)),
        None => Ok(Answer::Nothing),
    }
}

/// The answer to a question about the document of this number, one of those of a program. Hints stand behind calls, what
/// may be put at a place are methods, and a document that shows no typestate has nothing for a diagram.
///
/// # Errors
/// `Memory` where memory is wanted, or where a program has more parts than a core can number.
pub fn answer(
    alloc: Global,
    names: &[Text],
    contents: &[Bytes],
    encoding: Encoding,
    file: u32,
    question: &Question,
) -> Result<Answer, Memory>
    requires same { length names.now ≡ length contents.now }
    requires count { length contents.now < 2 ^ 32 }
    requires kinds { HaveKinds names.now }
    requires file { file < length names.now }
    ensures { IfOk result (λ a. IsAnswered encoding names.now contents.now file question.now a) }
{
    match question {
        Question::Hover(point) => hover(alloc, names, contents, encoding, file, point.position),
        Question::Completion(point) => {
            let items = offers(alloc, names, contents, encoding, file, point.position)?;
            Ok(Answer::Completion(items))
        }
        Question::Definition(point) => {
            let locations = definitions(alloc, names, contents, encoding, file, point.position)?;
            Ok(Answer::Definition(locations))
        }
        Question::Hints { document: _, range } => {
            let hints = hints(alloc, names, contents, encoding, file, *range)?;
            Ok(Answer::Hints(hints))
        }
        Question::Symbols(_) => declared(alloc, names, contents, encoding, file),
        Question::Diagram(_) => drawn(alloc, names, contents, file),
    }
}
