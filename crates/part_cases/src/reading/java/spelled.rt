//! What the parser reads of tokens that are written with a blank between any two.
//! A token stands at the column of its number.

use crate::reading::java::{faults, trees};
use cases::Answer;
use jv_parse::parse_file;
use jv_read::JavaFault;
use jv_tree::{Sign, Token, TokenKind};
use mg_text::{List, Memory, Place, Text};
use std::alloc::Global;

/// What is asked of the tree of the file that words spell, or the fault.
pub(crate) fn tell(
    alloc: Global,
    answer: &mut Answer,
    asked: &str,
    words: &[u8],
) -> Result<(), Memory> {
    let tokens = tokens_of(alloc, words)?;
    match parse_file(alloc, 0, tokens.as_slice()) {
        Ok(file) => trees::tell(alloc, answer, asked, &file),
        Err(fault) => {
            faults::add_line(answer, &JavaFault::from(fault));
            Ok(())
        }
    }
}

// The tokens that words stand for.
fn tokens_of(alloc: Global, words: &[u8]) -> Result<List<Token>, Memory> {
    let words = String::from_utf8_lossy(alloc, words)?;
    let mut tokens = List::new(alloc);
    let mut column: u32 = 0;
    for word in words.as_str().split_terminator(' ') {
        column = column.saturating_add(1);
        tokens.push(token_of(alloc, word, column)?)?;
    }
    Ok(tokens)
}

// A token: a sign, the number 1, the text `"a"`, or a word.
fn token_of(alloc: Global, word: &str, column: u32) -> Result<Token, Memory> {
    let kind = match sign_of(word) {
        Some(sign) => TokenKind::Sign(sign),
        None => match word {
            "1" => TokenKind::Number(1),
            "\"a\"" => TokenKind::Text(Text::of(alloc, "a")?),
            _ => TokenKind::Word(Text::of(alloc, word)?),
        },
    };
    let place = Place {
        file: 0,
        line: 1,
        column,
    };
    Ok(Token { kind, place })
}

// The sign that is written so.
fn sign_of(word: &str) -> Option<Sign> {
    match word {
        "{" => Some(Sign::OpenBrace),
        "}" => Some(Sign::CloseBrace),
        "(" => Some(Sign::OpenParen),
        ")" => Some(Sign::CloseParen),
        "[" => Some(Sign::OpenBracket),
        "]" => Some(Sign::CloseBracket),
        ";" => Some(Sign::Semicolon),
        "," => Some(Sign::Comma),
        "." => Some(Sign::Dot),
        "=" => Some(Sign::Assign),
        "+=" => Some(Sign::PlusAssign),
        "++" => Some(Sign::PlusPlus),
        "+" => Some(Sign::Plus),
        "-" => Some(Sign::Minus),
        "<" => Some(Sign::Less),
        ":" => Some(Sign::Colon),
        "@" => Some(Sign::At),
        "~" => Some(Sign::Tilde),
        _ => None,
    }
}
