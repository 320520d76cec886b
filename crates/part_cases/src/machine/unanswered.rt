//! Why a case has no answer.

use cases::Answer;
use mg_text::Memory;
use std::alloc::{AllocError, AllocFailed};

/// Why a case has no answer.
#[derive(Clone, Copy)]
pub enum Unanswered {
    /// What it gives is out of form, or a class file isn't what it is to be.
    Form,
    /// Want of memory.
    Memory,
}

impl Unanswered {
    /// Adds what is told in the place of an answer. Want of memory has nothing to tell.
    pub fn tell(self, answer: &mut Answer) {
        match self {
            Unanswered::Form => answer.add("out of form"),
            Unanswered::Memory => answer.fail(),
        }
    }
}

impl From<Memory> for Unanswered {
    fn from(_memory: Memory) -> Unanswered {
        Unanswered::Memory
    }
}

impl From<AllocError> for Unanswered {
    fn from(_error: AllocError) -> Unanswered {
        Unanswered::Memory
    }
}

impl<T: Drop> From<AllocFailed<T>> for Unanswered {
    fn from(_error: AllocFailed<T>) -> Unanswered {
        Unanswered::Memory
    }
}
