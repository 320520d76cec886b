//! The tokens of a source.

use crate::reading::bases::add_place;
use crate::reading::java::faults;
use cases::Answer;
use jv_lex::tokens;
use jv_read::JavaFault;
use jv_tree::{Token, TokenKind};
use std::alloc::Global;

// The number of the file in places.
const FILE: u32 = 7;

/// A line for each token of a source, or how many bytes its one text has; or a line for its fault.
pub(crate) fn tell(alloc: Global, answer: &mut Answer, asked: &str, source: &[u8]) {
    match tokens(alloc, FILE, source) {
        Ok(found) => add_found(answer, asked, found.as_slice()),
        Err(fault) => faults::add_line(answer, &JavaFault::from(fault)),
    }
}

fn add_found(answer: &mut Answer, asked: &str, found: &[Token]) {
    if asked == "long_texts.txt" {
        return add_size(answer, found);
    }
    for token in found {
        add_token(answer, token);
    }
}

// A line for the place of a token, and what it is.
fn add_token(answer: &mut Answer, token: &Token) {
    answer.line();
    add_place(answer, token.place);
    match &token.kind {
        TokenKind::Word(word) => answer.pair(" word ", word.as_str()),
        TokenKind::Number(number) => {
            answer.add(" number ");
            answer.show(number);
        }
        TokenKind::Text(body) => {
            answer.add(" text ");
            answer.tell(&body.as_str());
        }
        TokenKind::Sign(sign) => {
            answer.add(" ");
            answer.tell(sign);
        }
    }
}

// How many bytes the text has that stands alone.
fn add_size(answer: &mut Answer, found: &[Token]) {
    match found {
        [token] => match &token.kind {
            TokenKind::Text(text) => answer.tell(&text.as_str().len()),
            _ => answer.add("no text alone"),
        },
        _ => answer.add("no text alone"),
    }
}
