//! The texts that notes number.
//! A text is never changed, nor taken from the table. One that was kept lately isn't kept again.

ghost use Rattle.std.specs.Prelude.{◌≡◌, ◌<◌, ◌≤◌, ◌+◌, [], length, IfOk, IfSome, OnOk, OnErr, IsTrue};
ghost use Rattle.vm_events.specs.Seen.{Grows, IsNumbered};
ghost use Rattle.vm_events.specs.inner.Kept.{text_at};
ghost use Rattle.vm_events.specs.inner.Keeping.{HasNumber};

use crate::guesses::{Guess, Guesses, place_of};
use mg_text::{List, Memory, Text};
use std::alloc::Global;
use std::mem::replace;

/// How many texts an event has at most: a peer's name, a label and a payload.
pub(crate) const TEXTS: usize = 3;

/// Texts by their numbers, and where those may be found that were kept lately.
#[derive(Drop)]
pub(crate) struct Texts {
    pub kept: List<Text>,
    guesses: Guesses,
}

/// A text, in whose place the empty one is left.
fn taken(alloc: Global, text: &mut Text) -> Text
    ensures { result ≡ text.old }
{
    replace(text, Text::from_string(String::new(alloc)))
}

impl Texts {
    /// No texts.
    ///
    /// # Errors
    /// `Memory` only.
    pub(crate) fn new(alloc: Global) -> Result<Texts, Memory>
        ensures { IfOk result (λ t. t.kept.items ≡ []) }
    {
        let guesses = Guesses::new(alloc)?;
        Ok(Texts {
            kept: List::new(alloc),
            guesses,
        })
    }

    /// The text of a number; empty where there is none.
    pub(crate) fn text(&self, number: u32) -> &str
        ensures { result.now ≡ text_at self.now.kept.items number }
    {
        match self.kept.as_slice().get(number as usize) {
            Some(text) => text.as_str(),
            None => "",
        }
    }

    /// Whether the text of a number is this one.
    fn says(&self, number: u32, text: &str) -> bool
        ensures within { IsTrue result → number < length self.now.kept.items }
        ensures same { IsTrue result → text_at self.now.kept.items number ≡ text.now }
    {
        let known = (number as usize) < self.kept.len();
        known && self.text(number) == text
    }

    /// The number of this text, where a guess is right.
    fn find(&self, text: &str, guess: Guess) -> Option<u32>
        ensures within { IfSome result (λ n. n < length self.now.kept.items) }
        ensures same { IfSome result (λ n. text_at self.now.kept.items n ≡ text.now) }
    {
        if self.says(guess.last, text) {
            return Some(guess.last);
        }
        if self.says(guess.other, text) {
            Some(guess.other)
        } else {
            None
        }
    }

    /// Makes room for so many texts more.
    ///
    /// # Errors
    /// `Memory` only.
    pub(crate) fn reserve(&mut self, count: usize) -> Result<(), Memory>
        ensures texts { self.new.kept.items ≡ self.old.kept.items }
        ensures ok { OnOk result (count ≤ self.new.kept.spare) }
        ensures never_lowered { self.old.kept.spare ≤ self.new.kept.spare }
    {
        self.kept.reserve(count)
    }

    /// Keeps a text, whose place for guesses is this one, behind the others. The answer is its number.
    fn keep(&mut self, place: usize, text: Text) -> u32
        requires { 0 < self.old.kept.spare }
        ensures number { HasNumber self.old.kept.items self.new.kept.items result text }
        ensures spare { self.old.kept.spare ≤ self.new.kept.spare + 1 }
    {
        let number = self.kept.len() as u32;
        self.kept.add(text);
        self.guesses.put(place, number);
        number
    }

    /// The number of a text, which is taken and kept if it wasn't found among those that were kept
    /// lately.
    pub(crate) fn number_of(&mut self, alloc: Global, text: &mut Text) -> u32
        requires { 0 < self.old.kept.spare }
        ensures number { HasNumber self.old.kept.items self.new.kept.items result text.old }
        ensures spare { self.old.kept.spare ≤ self.new.kept.spare + 1 }
    {
        let place = place_of(text.as_str());
        if let Some(number) = self.find(text.as_str(), self.guesses.at(place)) {
            return number;
        }
        self.keep(place, taken(alloc, text))
    }

    /// The number of a text, of which a copy is kept if it wasn't found among those that were kept
    /// lately. Where there was room for the texts of an event, there still is.
    ///
    /// # Errors
    /// `Memory` only, and past 2^32 - 1 texts. The texts stay as they are.
    pub(crate) fn number_of_copy(&mut self, alloc: Global, text: &str) -> Result<u32, Memory>
        ensures grows { Grows self.old.kept.items self.new.kept.items }
        ensures number { IfOk result (λ n. IsNumbered self.new.kept.items n text.now) }
        ensures err { OnErr result (self.new.kept.items ≡ self.old.kept.items) }
        ensures room { 3 ≤ self.old.kept.spare → 3 ≤ self.new.kept.spare }
    {
        let place = place_of(text);
        if let Some(number) = self.find(text, self.guesses.at(place)) {
            return Ok(number);
        }
        let copy = Text::of(alloc, text)?;
        self.kept.reserve(TEXTS + 1)?;
        Ok(self.keep(place, copy))
    }
}
