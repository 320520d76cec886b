//! Why the cases of a file can't be told.
//! A case whose answer isn't the wanted one is no fault: it is told.

use mg_text::Memory;
use std::alloc::{AllocError, AllocFailed};
use std::io;
use thiserror::Error;

/// Why the cases of a file can't be told.
#[derive(Debug, Drop, Error)]
pub enum CasesFault {
    /// The line of this number, from 1, is out of form, or the file ends in the midst of a case.
    #[error("line {0} is out of form")]
    Line(usize),
    /// Want of memory.
    #[error("out of memory")]
    Memory,
    /// The file can't be read, or nothing be printed.
    #[error("{0}")]
    Outside(io::Error),
}

impl From<Memory> for CasesFault {
    fn from(_memory: Memory) -> CasesFault {
        CasesFault::Memory
    }
}

impl From<AllocError> for CasesFault {
    fn from(_error: AllocError) -> CasesFault {
        CasesFault::Memory
    }
}

impl<T: Drop> From<AllocFailed<T>> for CasesFault {
    fn from(_error: AllocFailed<T>) -> CasesFault {
        CasesFault::Memory
    }
}

impl From<io::Error> for CasesFault {
    fn from(error: io::Error) -> CasesFault {
        CasesFault::Outside(error)
    }
}
