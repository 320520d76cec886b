//! The words behind `fit`: roles, each with its class, and then files, that of the global protocol first.

ghost use Rattle.std.specs.Prelude.{◌≡◌, ◌∷◌, ◌↔◌, IsTrue, codes, List, IfOk};
ghost use Rattle.mg_words.specs.Words.{Word};
ghost use Rattle.mg_words.specs.inner.Judging.{CanBeNamed, IsFitting, IsJudged};

use crate::asked::Cast;
use crate::names::{is_file, is_name, is_word, other_source};
use crate::roles::role_of;
use crate::words::{Command, Judged};
use mg_text::{Memory, Names, Text};
use std::alloc::Global;

// The most roles that are named.
const MOST_ROLES: usize = 0xffff_ffff;

/// Tells which command the words behind `fit` are, or the first that can't follow: roles, and then
/// files.
///
/// # Errors
/// `Memory` only.
pub fn judge_fit(alloc: Global, words: &[Text]) -> Result<Judged<'_>, Memory>
    ensures { IfOk result (IsJudged (codes "fit" ∷ words.now)) }
{
    let count = words.len();
    let mut names = Names::new(alloc);
    let mut rest = words;
    while let Some((word, behind)) = rest.split_first() {
        if !is_word(word, "--role") {
            let cast = Cast {
                words: &words[..count - rest.len()],
            };
            return Ok(judge_fitting(cast, rest));
        }
        let Some((value, left)) = behind.split_first() else {
            return Ok(Judged::Wrong(None));
        };
        if !can_be_named(&names, value) {
            return Ok(Judged::Wrong(Some(value)));
        }
        if names.len() >= MOST_ROLES {
            return Err(Memory);
        }
        names.add(role_of(value).role)?;
        rest = left;
    }
    Ok(Judged::Wrong(None))
}

// Whether a word names a role, none of these, and its class.
fn can_be_named(names: &Names, word: &Text) -> bool
    ensures { IsTrue result ↔ CanBeNamed names.now word.now }
{
    let named = role_of(word);
    if !is_name(named.role) {
        return false;
    }
    if !is_name(named.class) {
        return false;
    }
    names.find(named.role).is_none()
}

// The same of the words behind the roles, which are the files.
fn judge_fitting<'a>(cast: Cast<'a>, files: &'a [Text]) -> Judged<'a>
    requires { (rest : List Word) → files.now ≡ codes "--role" ∷ rest → ⊥ }
    ensures { IsFitting cast.entry.words.now files.now result }
{
    let Some((global, sources)) = files.split_first() else {
        return Judged::Wrong(None);
    };
    if cast.words.is_empty() {
        return Judged::Wrong(Some(global));
    }
    if !is_file(global, b".scr") {
        return Judged::Wrong(Some(global));
    }
    if let Some(word) = other_source(sources) {
        return Judged::Wrong(Some(word));
    }
    if sources.is_empty() {
        return Judged::Wrong(None);
    }
    Judged::Known(Command::Fit { cast, files })
}
