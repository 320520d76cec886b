//! The texts that cells number.
//! A text is never changed, nor taken from the table.

ghost use Rattle.std.specs.Prelude.{◌≡◌, ◌<◌, ◌++◌, ◌∷◌, [], length, slice_index_or, IfOk, IfSome, OnErr};

use crate::state::State;
use mg_text::{List, Memory, Text};

impl State {
    /// The texts.
    pub fn texts(&self) -> &List<Text>
        ensures { result.now.items ≡ self.now.texts }
    {
        &self.texts
    }

    /// A text of the table.
    #[inline(always)]
    pub fn text(&self, number: u32) -> &Text
        requires { number < length self.now.texts }
        ensures { result.now ≡ slice_index_or self.now.texts number [] }
    {
        &self.texts.as_slice()[number as usize]
    }

    /// The number of this text, where it is noted that the next instruction pushed it.
    #[inline(always)]
    pub fn noted(&self, text: &Text) -> Option<u32>
        ensures within { IfSome result (λ n. n < length self.now.texts) }
        ensures says { IfSome result (λ n. slice_index_or self.now.texts n [] ≡ text.now) }
    {
        let head = &self.head;
        let number = self.notes.at(head.class, head.method, head.place)?;
        let found = self.texts.as_slice().get(number as usize)?;
        if found.as_str() == text.as_str() {
            Some(number)
        } else {
            None
        }
    }

    /// Notes that the next instruction pushes the text of this number.
    pub fn note(&mut self, number: u32)
        ensures machine { self.new.machine ≡ self.old.machine }
        ensures texts { self.new.texts ≡ self.old.texts }
    {
        let head = self.head;
        self.notes.put(head.class, head.method, head.place, number);
    }

    /// Puts a text into the table, and answers its number. After an error nothing has changed.
    ///
    /// # Errors
    /// `Memory` only.
    pub fn add_text(&mut self, text: Text) -> Result<u32, Memory>
        ensures number { IfOk result (λ n. n ≡ length self.old.texts) }
        ensures ok { IfOk result (λ _. self.new.texts ≡ self.old.texts ++ text ∷ []) }
        ensures err { OnErr result (self.new.texts ≡ self.old.texts) }
        ensures machine { self.new.machine ≡ self.old.machine }
    {
        let number = self.texts.len() as u32;
        self.texts.push(text)?;
        Ok(number)
    }
}
