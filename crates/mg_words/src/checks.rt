//! The words behind `check` and `show`: files, and before those of `check` the option by which all is told.

ghost use Rattle.std.specs.Prelude.{◌∷◌, codes};
ghost use Rattle.mg_words.specs.inner.Judging.{IsJudged, IsSplit};

use crate::names::{is_word, other_source};
use crate::words::{Command, Judged};
use mg_text::Text;

// Whether `--all` stands first, and the words behind it.
#[derive(Clone, Copy)]
struct Split<'a> {
    all: bool,
    files: &'a [Text],
}

// Whether `--all` stands first, and the words behind it.
fn split_all(words: &[Text]) -> Split<'_>
    ensures { IsSplit words.now result }
{
    let Some((option, files)) = words.split_first() else {
        return Split {
            all: false,
            files: words,
        };
    };
    if !is_word(option, "--all") {
        return Split {
            all: false,
            files: words,
        };
    }
    Split { all: true, files }
}

/// Tells which command the words behind `check` are, or the first that can't follow.
pub(crate) fn judge_check(words: &[Text]) -> Judged<'_>
    ensures { IsJudged (codes "check" ∷ words.now) result }
{
    let split = split_all(words);
    let files = split.files;
    if let Some(word) = other_source(files) {
        return Judged::Wrong(Some(word));
    }
    if files.is_empty() {
        return Judged::Wrong(None);
    }
    Judged::Known(Command::Check {
        all: split.all,
        files,
    })
}

/// The same of the words behind `show`, which are its files.
pub(crate) fn judge_show(files: &[Text]) -> Judged<'_>
    ensures { IsJudged (codes "show" ∷ files.now) result }
{
    if let Some(word) = other_source(files) {
        return Judged::Wrong(Some(word));
    }
    if files.is_empty() {
        return Judged::Wrong(None);
    }
    Judged::Known(Command::Show { files })
}
