//! An answer as it is put together, piece by piece.

use mg_text::{Memory, Place, Text};
use std::alloc::Global;
use std::fmt::{Debug, Display};

/// The text of an answer so far.
///
/// What adds to it returns nothing. A piece for which memory lacks is left out, and `into_text` tells
/// that memory lacked.
pub struct Answer {
    text: String,
    /// Whether memory ever lacked.
    failed: bool,
}

impl Drop for Answer {
    fn drop(self) {
        let Answer { text: _, failed: _ } = self;
    }
}

impl Answer {
    /// No text.
    pub fn new(alloc: Global) -> Answer {
        Answer {
            text: String::new(alloc),
            failed: false,
        }
    }

    /// Takes down that memory lacked for what was to be added.
    pub fn fail(&mut self) {
        self.failed = true;
    }

    /// Adds a piece.
    pub fn add(&mut self, piece: &str) {
        if self.text.push_str(piece).is_err() {
            self.failed = true;
        }
    }

    /// Adds two pieces.
    pub fn pair(&mut self, first: &str, second: &str) {
        self.add(first);
        self.add(second);
    }

    /// Goes on to the next line, where there is one before.
    pub fn line(&mut self) {
        if !self.text.is_empty() {
            self.add("\n");
        }
    }

    /// Adds a text in a format. `write!` calls it.
    pub fn write_fmt<T: Display + Drop>(&mut self, text: T) {
        if self.text.write_fmt(text).is_err() {
            self.failed = true;
        }
    }

    /// Adds a value as it is shown.
    pub fn show<T: Display>(&mut self, value: &T) {
        write!(self, "{value}");
    }

    /// Adds a value as it is told whole.
    pub fn tell<T: Debug>(&mut self, value: &T) {
        write!(self, "{value:?}");
    }

    /// Adds a number in hexadecimal, of two digits at least.
    pub fn hexadecimal(&mut self, number: u32) {
        write!(self, "{number:02x}");
    }

    /// Adds a line and a column.
    pub fn place(&mut self, place: Place) {
        let Place { line, column, .. } = place;
        write!(self, "{line}:{column}");
    }

    /// Adds a text, or fails where memory lacked to make it.
    pub fn made(&mut self, text: Result<Text, Memory>) {
        match text {
            Ok(text) => self.add(text.as_str()),
            Err(Memory) => self.fail(),
        }
    }

    /// Adds a fault as `LINE:COLUMN: KIND NAME`, out of what it tells whole. The fault `Memory` has
    /// no text: the answer fails.
    pub fn fault<F: Debug>(&mut self, fault: &F) {
        match told(*self.text.allocator(), fault) {
            Ok(whole) => self.add_fault(whole.as_str()),
            Err(Memory) => self.fail(),
        }
    }

    // Adds a fault that is told whole.
    fn add_fault(&mut self, whole: &str) {
        if whole == "Memory" {
            return self.fail();
        }
        self.pair(between(whole, "line: ", ","), ":");
        self.pair(between(whole, "column: ", " "), ": ");
        self.add(kind_of(whole));
        let name = between(whole, "text: \"", "\"");
        if !name.is_empty() {
            self.pair(" ", name);
        }
    }

    /// The whole text.
    ///
    /// # Errors
    /// `Memory` where memory ever lacked.
    pub fn into_text(self) -> Result<String, Memory> {
        let Answer { text, failed } = self;
        if failed { Err(Memory) } else { Ok(text) }
    }
}

/// A value told whole.
pub fn told<T: Debug>(alloc: Global, value: &T) -> Result<String, Memory> {
    let mut answer = Answer::new(alloc);
    answer.tell(value);
    answer.into_text()
}

// The kind of a fault that is told whole: the condition that isn't met, where it says one.
fn kind_of(whole: &str) -> &str {
    let condition = between(whole, "condition: ", ",");
    if condition.is_empty() {
        return front(whole, " ");
    }
    condition
}

// What stands in a text between two others.
fn between<'a>(text: &'a str, before: &str, behind: &str) -> &'a str {
    match text.split_once(before) {
        Some((_, rest)) => front(rest, behind),
        None => "",
    }
}

// A text up to another.
fn front<'a>(text: &'a str, behind: &str) -> &'a str {
    match text.split_once(behind) {
        Some((front, _)) => front,
        None => text,
    }
}
