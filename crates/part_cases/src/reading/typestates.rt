//! Answers on typestates: that they are read, or their faults.

use cases::Answer;
use std::alloc::Global;
use ts_read::read_typestate;

/// That a typestate is read, or its fault.
pub fn tell(alloc: Global, answer: &mut Answer, given: &[u8]) {
    match read_typestate(alloc, 0, given) {
        Ok(_read) => answer.add("read"),
        Err(fault) => answer.fault(&fault),
    }
}
