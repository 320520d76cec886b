//! Answers on the text of local protocols: tokens, faults, what is read, how it is printed, and the
//! typestates and APIs that are made of it.

use crate::reading::bases::add_place;
use crate::reading::walks::{add_api, typestate_text};
use cases::Answer;
use mg_text::Memory;
use scr_lex::{reserved, tokens};
use scr_read::{Local, Statement, print_local, read_local};
use scr_trace::label_call_name;
use scr_tree::{Token, TokenKind};
use std::alloc::Global;

/// The mark that a word is.
pub fn reserved_word(answer: &mut Answer, given: &[u8]) {
    answer.tell(&reserved(given));
}

/// A line for each token of the file of number 7, or the offset of the byte that is bad.
pub fn tokens_of(alloc: Global, answer: &mut Answer, given: &[u8]) {
    if given.len() > 1000 {
        return answer.add("too long");
    }
    match tokens(alloc, 7, given) {
        Ok(found) => add_tokens(answer, found.as_slice()),
        Err(fault) => answer.tell(&fault),
    }
}

fn add_tokens(answer: &mut Answer, found: &[Token]) {
    for token in found {
        add_token(answer, token);
    }
}

// The place of a token, and what it is.
fn add_token(answer: &mut Answer, token: &Token) {
    add_place(answer, token.place);
    match &token.kind {
        TokenKind::Name(name) => answer.pair(" name ", name.as_str()),
        TokenKind::Quoted(body) => answer.pair(" text ", body.as_str()),
        TokenKind::Mark(mark) => {
            answer.add(" ");
            answer.tell(mark);
        }
    }
    answer.add("\n");
}

/// What is asked, by the file where the case stands, of the protocol of the file of number 3; or the
/// fault.
pub fn tell(alloc: Global, answer: &mut Answer, asked: &str, given: &[u8]) -> Result<(), Memory> {
    match read_local(alloc, 3, given) {
        Ok(local) => tell_read(alloc, answer, asked, &local),
        Err(fault) => {
            answer.fault(&fault);
            Ok(())
        }
    }
}

// What is asked of a protocol. Of those that are only judged it is enough that they are read.
fn tell_read(alloc: Global, answer: &mut Answer, asked: &str, local: &Local) -> Result<(), Memory> {
    match asked {
        "whole.txt" => add_whole(answer, local),
        "printed.txt" => answer.made(print_local(alloc, local)),
        "generated.txt" => answer.made(typestate_text(alloc, local)),
        // the answer to the first choice, which the role `C` makes
        "label_calls.txt" => answer.made(label_call_name(alloc, local, 1, "C")),
        "apis.txt" => add_api(alloc, answer, local)?,
        _ => answer.add("read"),
    }
    Ok(())
}

// The file, name, role and number of roles of a protocol, and its statements.
fn add_whole(answer: &mut Answer, local: &Local) {
    answer.tell(&(
        local.file(),
        local.name().as_str(),
        local.me().as_str(),
        local.roles().len(),
    ));
    for statement in local.body().as_slice() {
        add_statement(answer, statement);
    }
}

// A line for a statement: of a loop its place, its name and how many statements it has.
fn add_statement(answer: &mut Answer, statement: &Statement) {
    match statement {
        Statement::Rec { place, name, body } => {
            answer.add("\n");
            answer.place(*place);
            answer.pair(": rec ", name.as_str());
            answer.add(" of ");
            answer.show(&body.len());
        }
        _ => answer.add("\nanother statement"),
    }
}
