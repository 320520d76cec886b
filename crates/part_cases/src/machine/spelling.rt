//! Bytes and numbers that are spelled in texts.

use crate::machine::unanswered::Unanswered;
use std::alloc::{AllocError, Global};
use std::str::FromStr;

/// The bytes that a text spells, each by its two digits, with blanks or line feeds between.
pub fn bytes_of(alloc: Global, text: &str) -> Result<Vec<u8>, Unanswered> {
    let mut bytes = Vec::new(alloc);
    add_bytes(&mut bytes, text)?;
    Ok(bytes)
}

/// Adds the bytes that a text spells so.
pub fn add_bytes(bytes: &mut Vec<u8>, text: &str) -> Result<(), Unanswered> {
    for word in text.split_ascii_whitespace() {
        let byte = byte_of(word).ok_or(Unanswered::Form)?;
        bytes.push(byte)?;
    }
    Ok(())
}

/// The byte that two digits spell.
pub fn byte_of(word: &str) -> Option<u8> {
    u8::from_str_radix(word, 16).ok()
}

/// The number that a word spells.
pub fn number_of<T: FromStr>(word: &str) -> Option<T>
where
    T::Err: Drop,
{
    word.parse().ok()
}

/// Parts, one behind the other.
pub fn joined(alloc: Global, parts: &[&[u8]]) -> Result<Vec<u8>, AllocError> {
    let mut bytes = Vec::new(alloc);
    for part in parts {
        bytes.extend_from_slice(*part)?;
    }
    Ok(bytes)
}
