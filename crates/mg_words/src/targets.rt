//! The words behind `translate` and `client`: a package and a folder in any order, and then files.

ghost use Rattle.std.specs.Prelude.{◌≡◌, ◌∷◌, codes, List, option_map};
ghost use Rattle.mg_words.specs.Words.{Word};
ghost use Rattle.mg_words.specs.inner.Judging.{IsJudged, IsTranslated, word_for, making, command_of};

use crate::names::{is_file_name, is_word, other_file};
use crate::words::{Command, Judged};
use api_package::is_package;
use mg_text::Text;

/// What is made of protocols.
#[derive(Clone, Copy)]
pub enum Made {
    /// Their typestates, and the classes and enums of their roles: `translate`.
    Api,
    /// Clients that play them: `client`.
    Clients,
}

/// Tells which command the words behind that of this are, or the first that can't follow: options in
/// any order, each at most once, and then files.
pub fn judge_targets(made: Made, words: &[Text]) -> Judged<'_>
    ensures { IsJudged (word_for made ∷ words.now) result }
{
    let mut package_name = None;
    let mut folder = None;
    let mut rest = words;
    while let Some((word, behind)) = rest.split_first() {
        if is_word(word, "--package") {
            if package_name.is_some() {
                return Judged::Wrong(Some(word));
            }
            let Some((value, left)) = behind.split_first() else {
                return Judged::Wrong(None);
            };
            if !is_package(value.as_str()) {
                return Judged::Wrong(Some(value));
            }
            package_name = Some(value);
            rest = left;
        } else if is_word(word, "--out") {
            if folder.is_some() {
                return Judged::Wrong(Some(word));
            }
            let Some((value, left)) = behind.split_first() else {
                return Judged::Wrong(None);
            };
            if !is_file_name(value) {
                return Judged::Wrong(Some(value));
            }
            folder = Some(value);
            rest = left;
        } else {
            return judge_files(made, package_name, folder, rest);
        }
    }
    Judged::Wrong(None)
}

// The same of the words behind the options, which are the files.
fn judge_files<'a>(
    made: Made,
    package_name: Option<&'a Text>,
    folder: Option<&'a Text>,
    files: &'a [Text],
) -> Judged<'a>
    requires packaged { (more : List Word) → files.now ≡ codes "--package" ∷ more → ⊥ }
    requires placed { (more : List Word) → files.now ≡ codes "--out" ∷ more → ⊥ }
    ensures { IsTranslated made (option_map (λ p. p.now) package_name.entry) (option_map (λ f. f.now) folder.entry) files.now result }
{
    if let Some(word) = other_file(files, b".scr") {
        return Judged::Wrong(Some(word));
    }
    if files.is_empty() {
        return Judged::Wrong(None);
    }
    Judged::Known(command(made, package_name, folder, files))
}

// The command that makes this.
fn command<'a>(
    made: Made,
    package_name: Option<&'a Text>,
    folder: Option<&'a Text>,
    files: &'a [Text],
) -> Command<'a>
    ensures { command_of result ≡ making made (option_map (λ p. p.now) package_name.entry) (option_map (λ f. f.now) folder.entry)
        files.now }
{
    match made {
        Made::Api => Command::Translate {
            package_name,
            folder,
            files,
        },
        Made::Clients => Command::Client {
            package_name,
            folder,
            files,
        },
    }
}
