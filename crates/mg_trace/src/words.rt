//! The last word of a line: what a message carries, or what a method answered.

ghost use Rattle.std.specs.Prelude.{◌≡◌, ◌++◌, OnOk, string_bytes};
ghost use Rattle.vm_model.specs.Step.{truth_text};
ghost use Rattle.vm_events.specs.Seen.{carried_of};
ghost use Rattle.mg_trace.specs.Trace.{told_answer, answer_words, carried_words, label_text};
ghost use Rattle.mg_trace.specs.inner.Tabled.{AreTold, telling_of};
ghost use Rattle.mg_trace.specs.inner.Words.{word_text};

use crate::results::Answers;
use jv_core::{Core, CoreType, name_text};
use mg_text::Memory;
use vm_events::SeenCarried;

/// What stands last in a line, behind a blank.
#[derive(Clone, Copy)]
pub(crate) enum Word<'a> {
    /// Nothing, and no blank either.
    Nothing,
    /// A number.
    Number(i32),
    /// A text.
    Said(&'a str),
}

/// Appends a word, behind a blank.
pub(crate) fn push_word(word: Word<'_>, lines: &mut String) -> Result<(), Memory>
    ensures { OnOk result (string_bytes lines.new ≡ string_bytes lines.old ++ word_text word.entry) }
{
    match word {
        Word::Nothing => Ok(()),
        Word::Number(number) => {
            write!(lines, " {number}")?;
            Ok(())
        }
        Word::Said(text) => {
            write!(lines, " {text}")?;
            Ok(())
        }
    }
}

/// What a message carries.
pub(crate) fn carried_word(payload: SeenCarried<'_>) -> Word<'_>
    ensures { word_text result ≡ carried_words (carried_of payload.entry) }
{
    match payload {
        SeenCarried::Nothing => Word::Nothing,
        SeenCarried::Int(number) => Word::Number(number),
        SeenCarried::Truth(truth) => Word::Said(truth_word(truth)),
        SeenCarried::Text(text) => Word::Said(text),
    }
}

// A truth value.
fn truth_word(truth: bool) -> &'static str
    ensures { result.now ≡ truth_text truth }
{
    if truth { "true" } else { "false" }
}

/// The answer of a method of a class.
pub(crate) fn told_word<'a>(
    answers: Answers<'a>,
    class: &str,
    method: &str,
    answer: Option<i32>,
) -> Word<'a>
    ensures { AreTold answers.entry →
        word_text result ≡ told_answer (telling_of answers.entry) class.now method.now answer }
{
    match answers {
        Answers::ByTypes(core, results) => answer_word(core, results.find(class, method), answer),
        Answers::AsNumbers => match answer {
            Some(number) => Word::Number(number),
            None => Word::Nothing,
        },
    }
}

// An answer of this type. Other types have none.
fn answer_word(core: &Core, kind: Option<CoreType>, answer: Option<i32>) -> Word<'_>
    ensures { word_text result ≡ answer_words core.now kind answer }
{
    let Some(answer) = answer else {
        return Word::Nothing;
    };
    match kind {
        Some(CoreType::Int) => Word::Number(answer),
        Some(CoreType::Boolean) => Word::Said(truth_word(answer != 0)),
        Some(CoreType::Enum(of)) => return Word::Said(label(core, of, answer)),
        Some(CoreType::Void) | Some(CoreType::Text) | Some(CoreType::Object(_)) | None => {
            Word::Nothing
        }
    }
}

// The constant of an enum at a position.
fn label(core: &Core, of: u32, position: i32) -> &str
    ensures { result.now ≡ label_text core.now of position }
{
    let Some(own) = core.enums().get(of as usize) else {
        return "";
    };
    let Ok(position) = usize::try_from(position) else {
        return "";
    };
    match own.constants.as_slice().get(position) {
        Some(name) => name_text(core, *name),
        None => "",
    }
}
