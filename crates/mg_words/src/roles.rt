//! The roles and the names that words name: `R=C`, and `A,B,..`.
//! Nothing is kept of them but the words, which are gone over again.

ghost use Rattle.std.specs.Prelude.{◌≡◌, [], ◌∷◌, ◌<◌, length, MatchOption};
ghost use Rattle.std.specs.List.{list_all};
ghost use Rattle.mg_words.specs.Words.{role_names};
ghost use Rattle.mg_words.specs.inner.Judging.{role_read, role_word_of, roles_in, names_in, names_left, has_name};

use crate::names::is_word;
use mg_text::Text;

/// A role and its class, in the word that names them.
#[derive(Clone, Copy)]
pub struct RoleWord<'a> {
    pub role: &'a str,
    pub class: &'a str,
}

/// The role and the class that a word names, with the first `=` between them.
pub fn role_of(word: &Text) -> RoleWord<'_>
    ensures { role_word_of result ≡ role_read word.now }
{
    let text = word.as_str();
    match text.split_once('=') {
        Some((role, class)) => RoleWord { role, class },
        None => RoleWord {
            role: text,
            class: "",
        },
    }
}

/// The first role that these words name, and the words behind its own.
pub fn next_role(words: &[Text]) -> Option<(RoleWord<'_>, &[Text])>
    ensures { MatchOption result (roles_in words.now ≡ [])
        (λ (r, rest). (roles_in words.now ≡ role_word_of r ∷ roles_in rest.now) × (length rest.now < length words.now)) }
{
    let mut left = words;
    while let Some((word, behind)) = left.split_first() {
        left = behind;
        if is_word(word, "--role") {
            if let Some(value) = behind.first() {
                return Some((role_of(value), behind));
            }
        }
    }
    None
}

/// Whether these words name a role of this name.
pub fn has_role(words: &[Text], name: &str) -> bool
    ensures { result ≡ has_name (role_names (roles_in words.now)) name.now }
{
    let mut left = words;
    while let Some((named, behind)) = next_role(left) {
        if name == named.role {
            return true;
        }
        left = behind;
    }
    false
}

/// The first name of a word, and what stands behind its `,`, if there is one.
pub fn first_name(word: &str) -> (&str, Option<&str>)
    ensures { names_in word.now ≡ result.0.now ∷ names_left result.1 }
{
    match word.split_once(',') {
        Some((name, behind)) => (name, Some(behind)),
        None => (word, None),
    }
}

/// Whether a word names this name.
pub fn names_it(word: &str, name: &str) -> bool
    ensures { result ≡ has_name (names_in word.now) name.now }
{
    let mut left = Some(word);
    while let Some(text) = left {
        let (first, behind) = first_name(text);
        if name == first {
            return true;
        }
        left = behind;
    }
    false
}

/// Whether a word names each role that these words name.
pub fn names_each(word: &str, words: &[Text]) -> bool
    ensures { result ≡ list_all (has_name (names_in word.now)) (role_names (roles_in words.now)) }
{
    let mut left = words;
    while let Some((named, behind)) = next_role(left) {
        if !names_it(word, named.role) {
            return false;
        }
        left = behind;
    }
    true
}

/// Whether a word names only roles that these words name.
pub fn names_only(word: &str, words: &[Text]) -> bool
    ensures { result ≡ list_all (has_name (role_names (roles_in words.now))) (names_in word.now) }
{
    let mut left = Some(word);
    while let Some(text) = left {
        let (name, behind) = first_name(text);
        if !has_role(words, name) {
            return false;
        }
        left = behind;
    }
    true
}
