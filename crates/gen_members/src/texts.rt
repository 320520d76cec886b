//! How long texts become in a class file.

ghost use Rattle.std.specs.Prelude.{◌≡◌, ◌≤◌, length, map, nat_lt};
ghost use Rattle.std.specs.List.{list_any};
ghost use Rattle.cls_tree.specs.Modified.{modified_char, modified};
ghost use Rattle.gen_rules.specs.Limits.{is_long};
ghost use Rattle.gen_pool.specs.Keys.{const_of};

use gen_pool::Key;

/// The longest text of a class file, in bytes of modified UTF-8.
const MOST_TEXT: usize = 65535;

/// How many bytes a character takes in modified UTF-8.
fn char_size(character: char) -> usize
    ensures size { result ≡ length (modified_char character) }
    ensures few { result ≤ 6 }
{
    let code = character as u32;
    if code == 0 {
        return 2;
    }
    if code < 0x80 {
        return 1;
    }
    if code < 0x800 {
        return 2;
    }
    if code < 0x1_0000 { 3 } else { 6 }
}

/// Whether a text takes more bytes than a class file can hold. Counting ends there.
#[tactic(auto, unfolding(cls_tree::specs::Modified::modified))]
fn is_long_text(text: &str) -> bool
    ensures { result ≡ nat_lt 65535 (length (modified text.now)) }
{
    let mut size = 0;
    for character in text.chars() {
        if size <= MOST_TEXT {
            size += char_size(character);
        }
    }
    size > MOST_TEXT
}

/// Whether a constant is a text that is too long.
fn is_long(key: &Key) -> bool
    ensures { result ≡ is_long (const_of key.now) }
{
    match key {
        Key::Utf8(text) => is_long_text(text.as_str()),
        Key::Integer(_) | Key::Class(_) | Key::Text(_) => false,
        Key::Field(_, _) | Key::Method(_, _) | Key::NameAndType(_, _) => false,
    }
}

/// Whether one of these constants is a text that is too long.
pub(crate) fn has_long(keys: &[Key]) -> bool
    ensures { result ≡ list_any is_long (map const_of keys.now) }
{
    for key in keys {
        if is_long(key) {
            return true;
        }
    }
    false
}
