//! Reads the cases of a file, line by line.

use crate::CasesFault;
use crate::case::Case;
use crate::escapes::Spelled;
use std::alloc::{AllocError, Global};

/// What a line belongs to.
#[derive(Clone, Copy, PartialEq, Eq)]
enum Part {
    /// No case, since none has begun.
    Front,
    Given,
    Wanted,
}

/// The cases of a file up to some line.
#[derive(Drop)]
struct Reading {
    /// The last one is the one that is being read.
    cases: Vec<Case>,
    /// What the next line belongs to.
    part: Part,
    /// How many line feeds stand before the next line of this part that isn't empty.
    feeds: usize,
}

/// The cases of a file, in their order.
///
/// # Errors
/// `Line` for the first line that is out of form, and `Memory`.
pub fn cases_of(alloc: Global, file: &str) -> Result<Vec<Case>, CasesFault> {
    let mut reading = Reading {
        cases: Vec::new(alloc),
        part: Part::Front,
        feeds: 0,
    };
    let mut number = 0usize;
    for line in file.split('\n') {
        number = number.saturating_add(1);
        if !reading.read(alloc, line)? {
            return Err(CasesFault::Line(number));
        }
    }
    if reading.part == Part::Given {
        return Err(CasesFault::Line(number));
    }
    Ok(reading.cases)
}

impl Reading {
    // Reads a line, and answers whether it may stand here.
    fn read(&mut self, alloc: Global, line: &str) -> Result<bool, AllocError> {
        if line.starts_with("# ") {
            return Ok(true);
        }
        if let Some(name) = line.strip_prefix("=== ") {
            return self.begin(alloc, name);
        }
        if line == "---" {
            return Ok(self.turn());
        }
        self.add(line)
    }

    // Begins a case, where none is being given.
    fn begin(&mut self, alloc: Global, name: &str) -> Result<bool, AllocError> {
        if self.part == Part::Given {
            return Ok(false);
        }
        self.part = Part::Given;
        self.feeds = 0;
        self.cases.push(Case {
            name: String::from_str(alloc, name)?,
            given: Spelled::new(alloc),
            wanted: Spelled::new(alloc),
        })?;
        Ok(true)
    }

    // Turns from what is given to what is wanted.
    fn turn(&mut self) -> bool {
        if self.part != Part::Given {
            return false;
        }
        self.part = Part::Wanted;
        self.feeds = 0;
        true
    }

    // Adds a line to the part that it belongs to.
    fn add(&mut self, line: &str) -> Result<bool, AllocError> {
        let Some(case) = self.cases.last_mut() else {
            return Ok(line.is_empty());
        };
        let out = match self.part {
            Part::Wanted => &mut case.wanted,
            _ => &mut case.given,
        };
        let feeds = self.feeds;
        self.feeds = feeds.saturating_add(1);
        if line.is_empty() {
            return Ok(true);
        }
        self.feeds = 1;
        for _ in 0..feeds {
            out.add(b"\n");
        }
        out.spell(line)
    }
}
