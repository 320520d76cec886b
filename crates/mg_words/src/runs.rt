//! The words behind `run` and `exec`: options in any order, and then files.

ghost use Rattle.std.specs.Prelude.{◌≡◌, ◌<◌, ◌∷◌, length, option_map};
ghost use Rattle.mg_words.specs.inner.Judging.{asked_of, verb_of, IsFor, is_barred, IsFirstOther, IsJudged, IsRunnable};
ghost use Rattle.mg_words.specs.inner.Judging.{IsPlain};

use crate::asked::Asked;
use crate::names::{other_file, other_source};
use crate::options::{Named, Step, is_whole, option_named, read_option};
use crate::words::{Command, Judged};
use mg_text::Text;

/// What is run: the program of sources, or class files as they are.
#[derive(Clone, Copy)]
pub enum Input {
    Sources,
    Classes,
}

/// Tells which command the words behind `run` or `exec` are, or the first that can't follow: options
/// in any order, and then files.
pub fn judge_run(input: Input, words: &[Text]) -> Judged<'_>
    ensures { IsJudged (verb_of input ∷ words.now) result }
{
    let count = words.len();
    let mut asked = Asked {
        steps: None,
        traced: false,
        folder: None,
        class: None,
        order: None,
        words: &words[..0],
    };
    let mut rest = words;
    while let Some((word, behind)) = rest.split_first() {
        let Some(option) = option_named(word) else {
            return judge_runnable(input, asked, rest);
        };
        if is_barred(input, option) {
            return Judged::Wrong(Some(word));
        }
        match read_option(asked, option, behind) {
            Step::More(more, left) => {
                asked = Asked {
                    words: &words[..count - left.len()],
                    ..more
                };
                rest = left;
            }
            Step::Stuck(wrong) => return Judged::Wrong(wrong),
            Step::Barred => return Judged::Wrong(Some(word)),
        }
    }
    Judged::Wrong(None)
}

// Whether this option may not stand: class files that are there aren't written.
fn is_barred(input: Input, option: Named) -> bool
    ensures { result ≡ is_barred input option }
{
    match input {
        Input::Sources => false,
        Input::Classes => match option {
            Named::Out => true,
            _ => false,
        },
    }
}

// The same of the words behind the options, which are the files of the run.
fn judge_runnable<'a>(input: Input, asked: Asked<'a>, files: &'a [Text]) -> Judged<'a>
    requires some { 0 < length files.now }
    requires plain { IsPlain files.now }
    ensures { IsRunnable input (asked_of asked.entry) files.now result }
{
    if !is_whole(&asked) {
        return Judged::Wrong(files.first());
    }
    if let Some(word) = other_input(input, files) {
        return Judged::Wrong(Some(word));
    }
    match input {
        Input::Sources => Judged::Known(Command::Run { asked, files }),
        Input::Classes => Judged::Known(Command::Exec { asked, files }),
    }
}

// The first word that is no name of a file that may be run.
fn other_input(input: Input, files: &[Text]) -> Option<&Text>
    ensures { IsFirstOther (IsFor input) files.now (option_map (λ w. w.now) result) }
{
    match input {
        Input::Sources => other_source(files),
        Input::Classes => other_file(files, b".class"),
    }
}
