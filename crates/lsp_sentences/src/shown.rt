//! What is shown of a refusal.

ghost use Rattle.std.specs.Prelude.{◌≡◌, ◌++◌, IfOk, OnOk, option_map, string_bytes};
ghost use Rattle.std.specs.List.{flat_map};
ghost use Rattle.std.specs.Char.{encode_utf8};
ghost use Rattle.mg_refusal.specs.Refusals.{name_or_none};
ghost use Rattle.lsp_sentences.specs.Sentences.{first_word, behind_word, state_words, put_for, filled, named_text};
ghost use Rattle.lsp_sentences.specs.Sentences.{sentence_text, sentence_of, repair_text, repair_of, said_text, message_of};

use crate::repairs::repair_of;
use crate::table::sentence_of;
use mg_refusal::Refusal;
use mg_text::{Memory, Text};
use std::alloc::Global;

// The word in front, and what stands behind the blank after it.
fn cut(text: &str) -> (&str, &str)
    ensures first { result.0.now ≡ first_word text.now }
    ensures behind { result.1.now ≡ behind_word text.now }
{
    match text.split_once(' ') {
        Some((word, behind)) => (word, behind),
        None => (text, ""),
    }
}

// A state that is named, in words.
fn state_words(state: &str) -> &str
    ensures { result.now ≡ state_words state.now }
{
    if state == "end" { "its end" } else { state }
}

// Appends a character of a sentence, or what it stands for.
fn put_character(out: &mut String, character: char, word: &str, state: &str) -> Result<(), Memory>
    ensures { OnOk result (string_bytes out.new ≡ string_bytes out.old ++ flat_map (put_for word.now state.now) (encode_utf8 character)) }
{
    match character {
        '@' => out.push_str(word)?,
        '#' => out.push_str(state)?,
        _ => out.push(character)?,
    }
    Ok(())
}

// Appends a sentence, with a word and a state in their places.
fn put_words(out: &mut String, sentence: &str, word: &str, state: &str) -> Result<(), Memory>
    ensures { OnOk result (string_bytes out.new ≡ string_bytes out.old ++ flat_map (put_for word.now state.now) sentence.now) }
{
    for character in sentence.chars() {
        put_character(out, character, word, state)?;
    }
    Ok(())
}

// Appends a sentence on what is named.
fn put_filled(out: &mut String, name: &str, sentence: &str) -> Result<(), Memory>
    ensures { OnOk result (string_bytes out.new ≡ string_bytes out.old ++ filled name.now sentence.now) }
{
    let (word, behind) = cut(name);
    let (state, _) = cut(behind);
    put_words(out, sentence, word, state_words(state))
}

// Appends what is named behind a blank, if anything is.
fn put_name(out: &mut String, name: Option<&Text>) -> Result<(), Memory>
    ensures { OnOk result (string_bytes out.new ≡ string_bytes out.old ++ named_text (option_map (λ n. n.now) name.entry)) }
{
    if let Some(name) = name {
        out.push_str(" ")?;
        out.push_str(name.as_str())?;
    }
    Ok(())
}

// What is named, and nothing where nothing is.
fn name_of(refusal: &Refusal) -> &str
    ensures { result.now ≡ name_or_none refusal.now.name }
{
    match refusal.name() {
        Some(name) => name.as_str(),
        None => "",
    }
}

// Appends the sentence on a kind, if there is one.
fn put_sentence(out: &mut String, kind: &str, name: &str) -> Result<(), Memory>
    ensures { OnOk result (string_bytes out.new ≡ string_bytes out.old ++ sentence_text name.now (sentence_of kind.now)) }
{
    if let Some(sentence) = sentence_of(kind) {
        out.push_str(": ")?;
        put_filled(out, name, sentence)?;
    }
    Ok(())
}

// Appends what to do about a kind, on a line of its own, if there is a sentence on that.
fn put_repair(out: &mut String, kind: &str, name: &str) -> Result<(), Memory>
    ensures { OnOk result (string_bytes out.new ≡ string_bytes out.old ++ repair_text name.now (repair_of kind.now)) }
{
    if let Some(repair) = repair_of(kind) {
        out.push_str("\nRepair: ")?;
        put_filled(out, name, repair)?;
    }
    Ok(())
}

// Appends what is said of a kind: what is wrong, and what to do about it.
fn put_said(out: &mut String, kind: &str, name: &str) -> Result<(), Memory>
    ensures { OnOk result (string_bytes out.new ≡ string_bytes out.old ++ said_text name.now kind.now) }
{
    put_sentence(out, kind, name)?;
    put_repair(out, kind, name)
}

/// What an editor shows of a refusal: its kind, behind a blank what is named, if anything is, behind a
/// colon the sentence on it, if its kind has one, and on a line of its own what to do about it.
///
/// # Errors
/// `Memory` only.
pub fn message(alloc: Global, refusal: &Refusal) -> Result<Text, Memory>
    ensures { IfOk result (λ t. t ≡ message_of refusal.now) }
{
    let mut text = String::from_str(alloc, refusal.kind())?;
    put_name(&mut text, refusal.name())?;
    put_said(&mut text, refusal.kind(), name_of(refusal))?;
    Ok(Text::from_string(text))
}
