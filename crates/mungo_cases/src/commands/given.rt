//! The lines that a case gives before its files.

use mg_io::NumberList;
use mg_text::{List, Memory, Text};
use std::alloc::Global;

/// What stands behind this word in the first line that begins with it.
pub fn line_of<'a>(head: &'a str, word: &str) -> &'a str {
    for line in head.split('\n') {
        if let Some(rest) = line.strip_prefix(word) {
            return rest;
        }
    }
    ""
}

/// Whether each line is one that a case may give.
pub fn are_clear(head: &str) -> bool {
    for line in head.split('\n') {
        let (word, _) = line.split_once(' ').unwrap_or((line, ""));
        if !is_clear(word) {
            return false;
        }
    }
    true
}

// Whether a line may begin with this word.
fn is_clear(word: &str) -> bool {
    matches!(
        word,
        "mungo"
            | "with"
            | "first"
            | "fills"
            | "cuts"
            | "sets"
            | "grows"
            | "shows"
            | "bytes"
            | "folder"
            | "out"
            | "err"
            | "each"
    )
}

/// Words with one blank between each two.
pub fn words_of(alloc: Global, line: &str) -> Result<List<Text>, Memory> {
    let mut words = List::new(alloc);
    if line.is_empty() {
        return Ok(words);
    }
    for word in line.split(' ') {
        words.push(Text::of(alloc, word)?)?;
    }
    Ok(words)
}

/// Numbers with one blank between each two.
pub fn numbers_of(alloc: Global, line: &str) -> Result<NumberList, Memory> {
    let mut numbers = Vec::new(alloc);
    for word in line.split(' ') {
        if let Ok(number) = word.parse() {
            numbers.push(number)?;
        }
    }
    NumberList::of(alloc, numbers.as_slice())
}
