//! Which words name a package: names of Java with `.` between.

ghost use Rattle.std.specs.Prelude.{◌≡◌};
ghost use Rattle.std.specs.List.{list_all};
ghost use Rattle.api_package.specs.Package.{begins_word, is_java_name, is_package};
ghost use Rattle.jv_tree.specs.Tokens.{is_name};
ghost use Rattle.jv_lex.specs.Letters.{is_word_start, is_word_byte};

use mg_text::is_java_word;

/// Whether the word names a package: one or more names of Java with `.` between, none of which is
/// a word that Java reserves (Java language specification, 7.4.1).
pub fn is_package(word: &str) -> bool
    ensures { result ≡ is_package word.now }
{
    word.split('.').all(|name| is_java_name(name))
}

// Whether the text is a name: it is written as a word, and isn't reserved.
fn is_java_name(name: &str) -> bool
    ensures { result ≡ is_java_name name.now }
{
    let bytes = name.as_bytes();
    begins_word(bytes) && has_word_bytes(bytes) && is_free(name)
}

// Whether each byte may stand in a word.
fn has_word_bytes(bytes: &[u8]) -> bool
    ensures { result ≡ list_all is_word_byte bytes.now }
{
    bytes.iter().all(|byte| is_word_byte(*byte))
}

// Whether a word begins there.
fn begins_word(bytes: &[u8]) -> bool
    ensures { result ≡ begins_word bytes.now }
{
    match bytes.split_first() {
        None => false,
        Some((first, _)) => is_word_start(*first),
    }
}

// Whether Java doesn't reserve the word.
fn is_free(word: &str) -> bool
    ensures { result ≡ is_name word.now }
{
    !is_java_word(word)
}

fn is_word_start(byte: u8) -> bool
    ensures { result ≡ is_word_start byte }
{
    byte.is_ascii_alphabetic() || byte == b'_' || byte == b'$'
}

fn is_word_byte(byte: u8) -> bool
    ensures { result ≡ is_word_byte byte }
{
    is_word_start(byte) || byte.is_ascii_digit()
}
