//! What a word may name: a file, a folder, a class or a role.

ghost use Rattle.std.specs.Prelude.{◌≡◌, ◌↔◌, IsTrue, option_map};
ghost use Rattle.std.specs.List.{list_all};
ghost use Rattle.scr_tree.specs.Words.{IsName};
ghost use Rattle.scr_lex.specs.Pieces.{StartsName, AllPasses, is_name_start, is_name_byte};
ghost use Rattle.mg_words.specs.Words.{IsFileName, IsFileOf, IsSourceName};
ghost use Rattle.mg_words.specs.inner.Judging.{IsFirstOther};

use mg_text::Text;
use scr_lex::reserved;

// The most bytes of a name.
const NAME_LIMIT: usize = 255;

/// The first word that is no name of a file with this ending.
pub fn other_file<'a>(words: &'a [Text], suffix: &[u8]) -> Option<&'a Text>
    ensures { IsFirstOther (IsFileOf suffix.now) words.now (option_map (λ w. w.now) result) }
{
    for word in words {
        if !is_file(word, suffix) {
            return Some(word);
        }
    }
    None
}

/// The first word that is no name of a file that a program may have.
pub fn other_source(words: &[Text]) -> Option<&Text>
    ensures { IsFirstOther IsSourceName words.now (option_map (λ w. w.now) result) }
{
    for word in words {
        if !is_source_name(word) {
            return Some(word);
        }
    }
    None
}

/// Whether the word is this text.
pub fn is_word(word: &Text, text: &str) -> bool
    ensures { IsTrue result ↔ (word.now ≡ text.now) }
{
    word.as_str() == text
}

/// Whether the word may name a file or a folder.
pub fn is_file_name(word: &Text) -> bool
    ensures { IsTrue result ↔ IsFileName word.now }
{
    match word.as_str().as_bytes() {
        [] => false,
        [first, ..] => *first != b'-',
    }
}

/// Whether the word is the name of a file with this ending.
pub fn is_file(word: &Text, suffix: &[u8]) -> bool
    ensures { IsTrue result ↔ IsFileOf suffix.now word.now }
{
    let bytes = word.as_str().as_bytes();
    match bytes {
        [] => false,
        [first, ..] => *first != b'-' && bytes.ends_with(suffix),
    }
}

// Whether the word is the name of a file of a protocol, of a typestate, or of classes and enums.
fn is_source_name(word: &Text) -> bool
    ensures { IsTrue result ↔ IsSourceName word.now }
{
    if is_file(word, b".scr") {
        return true;
    }
    if is_file(word, b".protocol") {
        return true;
    }
    is_file(word, b".java")
}

/// Whether the text is a name as Scribble has them, and no reserved word.
pub fn is_name(text: &str) -> bool
    ensures { IsTrue result ↔ IsName text.now }
{
    let bytes = text.as_bytes();
    if !starts_name(bytes) || !has_name_bytes(bytes) || NAME_LIMIT < bytes.len() {
        return false;
    }
    reserved(bytes).is_none()
}

fn starts_name(bytes: &[u8]) -> bool
    ensures { IsTrue result ↔ StartsName bytes.now }
{
    match bytes.split_first() {
        None => false,
        Some((first, _)) => is_name_start(*first),
    }
}

fn has_name_bytes(bytes: &[u8]) -> bool
    ensures { IsTrue result ↔ AllPasses is_name_byte bytes.now }
{
    all_name_bytes(bytes)
}

// The same, as a function of the bytes.
fn all_name_bytes(bytes: &[u8]) -> bool
    ensures { result ≡ list_all is_name_byte bytes.now }
{
    bytes.iter().all(|byte| is_name_byte(*byte))
}

fn is_name_start(byte: u8) -> bool
    ensures { result ≡ is_name_start byte }
{
    byte.is_ascii_alphabetic() || byte == b'_'
}

fn is_name_byte(byte: u8) -> bool
    ensures { result ≡ is_name_byte byte }
{
    is_name_start(byte) || byte.is_ascii_digit()
}
