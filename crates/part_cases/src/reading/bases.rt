//! Answers on texts, bytes, lists, places, tables of names, Java's words and sets.
//! Each call that takes memory is seen to succeed where there is enough of it.

use cases::Answer;
use mg_sets::StateSet;
use mg_text::{Bytes, List, Memory, Name, Names, Place, Text, is_java_word, place_of};
use std::alloc::Global;

/// Bytes as text.
pub fn as_text(bytes: &[u8]) -> &str {
    std::str::from_utf8(bytes).unwrap_or("no text")
}

/// Adds a place with the number of its file.
pub fn add_place(answer: &mut Answer, place: Place) {
    answer.show(&place.file);
    answer.add(":");
    answer.place(place);
}

// The two parts of a text around a sign.
fn parts(text: &str, sign: char) -> (&str, &str) {
    text.split_once(sign).unwrap_or((text, ""))
}

fn number(text: &str) -> usize {
    text.parse().unwrap_or(0)
}

/// The copy of a text, whether it is equal, and the bytes of its first word with those behind it.
pub fn kept(alloc: Global, answer: &mut Answer, given: &str) -> Result<(), Memory> {
    let text = Text::of(alloc, given)?;
    let copy = text.copy()?;
    let bytes = bytes_joined(alloc, given)?;
    answer.tell(&(copy.as_str(), text == copy, bytes.as_slice(), bytes.len()));
    Ok(())
}

fn bytes_joined(alloc: Global, given: &str) -> Result<Bytes, Memory> {
    let (front, more) = parts(given, ' ');
    let mut bytes = Bytes::of(alloc, front.as_bytes())?;
    bytes.extend(more.as_bytes())?;
    Ok(bytes)
}

/// A list of the lengths of two words, the second of which is added in the room that was reserved.
pub fn listed(alloc: Global, answer: &mut Answer, given: &str) -> Result<(), Memory> {
    let (first, second) = parts(given, ' ');
    let mut list = List::new(alloc);
    list.push(first.len())?;
    list.reserve(3)?;
    list.add(second.len());
    answer.tell(&(list.as_slice(), list.len()));
    Ok(())
}

/// The place of an offset, the first line, in the text behind it, found in both ways.
pub fn place(answer: &mut Answer, given: &str) {
    let (offset, text) = parts(given, '\n');
    let (offset, bytes) = (number(offset), text.as_bytes());
    if bytes.len() > 1000 || offset > bytes.len() {
        return answer.add("too long");
    }
    let found = place_of(7, bytes, offset);
    let moved = Place::start(7).after(&bytes[..offset]);
    answer.tell(&(found, moved));
}

/// The numbers of the words up to a bar, and what is found of those behind it.
pub fn numbered(alloc: Global, answer: &mut Answer, given: &str) -> Result<(), Memory> {
    let (added, sought) = parts(given, '|');
    let mut names = Names::new(alloc);
    add_numbers(answer, &mut names, added)?;
    add_all_found(answer, &names, sought);
    Ok(())
}

// Adds words, of which some are taken, and tells their numbers.
fn add_numbers(answer: &mut Answer, names: &mut Names, added: &str) -> Result<(), Memory> {
    for word in added.split(' ') {
        if names.len() < 9 {
            let name = names.add(word)?;
            answer.tell(&name);
            answer.add(" ");
        }
    }
    Ok(())
}

// How many names there are, and what is found of each word.
fn add_all_found(answer: &mut Answer, names: &Names, sought: &str) {
    answer.tell(&names.len());
    for word in sought.split(' ') {
        add_found(answer, names, word);
    }
}

// The number of a word, and the text of that.
fn add_found(answer: &mut Answer, names: &Names, word: &str) {
    let found = names.find(word);
    answer.add(" ");
    answer.tell(&found);
    if let Some(name) = found {
        answer.add(text_of(names, name));
    }
}

fn text_of(names: &Names, name: Name) -> &str {
    if (name.0 as usize) < names.len() {
        names.text(name)
    } else {
        "no text"
    }
}

/// Whether Java reserves a word.
pub fn java_word(answer: &mut Answer, word: &str) {
    answer.tell(&is_java_word(word));
}

/// Two sets of the numbers up to a bar and behind it: which of them are new, which set lies in the
/// other, and what joining them changes, to and fro and again.
pub fn joined(alloc: Global, answer: &mut Answer, given: &str) -> Result<(), Memory> {
    let (first, second) = parts(given, '|');
    let mut left = set_of(alloc, answer, first)?;
    let mut right = set_of(alloc, answer, second)?;
    add_joined(answer, &mut left, &mut right);
    Ok(())
}

fn add_joined(answer: &mut Answer, left: &mut StateSet, right: &mut StateSet) {
    answer.tell(&[is_within(left, right), is_within(right, left)]);
    answer.add(" ");
    let joins = [join(left, right), join(right, left), join(right, left)];
    answer.tell(&joins);
    add_members(answer, right);
}

fn is_within(one: &StateSet, other: &StateSet) -> bool {
    one.width() == other.width() && one.is_subset(other)
}

fn join(set: &mut StateSet, other: &StateSet) -> bool {
    other.width() <= set.width() && set.join(other)
}

/// The members of a set.
pub fn add_members(answer: &mut Answer, set: &StateSet) {
    for member in set.iter() {
        answer.add(" ");
        answer.show(&member);
    }
}

// A set of numbers below 4, and whether each is new.
fn set_of(alloc: Global, answer: &mut Answer, numbers: &str) -> Result<StateSet, Memory> {
    let Ok(mut set) = StateSet::new(alloc, 4) else {
        return Err(Memory);
    };
    for word in numbers.split(' ') {
        answer.tell(&add_to(&mut set, number(word)));
        answer.add(" ");
    }
    Ok(set)
}

fn add_to(set: &mut StateSet, number: usize) -> bool {
    number < set.width() && set.add(number)
}
