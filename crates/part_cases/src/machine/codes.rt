//! Codes that are read, and encoded as they were.

use crate::machine::instrs::tell_instrs;
use crate::machine::spelling::bytes_of;
use crate::machine::unanswered::Unanswered;
use cases::Answer;
use cls_code::{decode, encode};
use std::alloc::Global;

/// Tells the instructions of a code, or its fault.
pub fn tell(alloc: Global, answer: &mut Answer, given: &str) -> Result<(), Unanswered> {
    let bytes = bytes_of(alloc, given)?;
    let bytes = bytes.as_slice();
    if !is_encoded_back(alloc, bytes) {
        answer.add("encoded otherwise");
    }
    match decode(alloc, bytes) {
        Ok(instrs) => tell_instrs(answer, instrs.as_slice()),
        Err(fault) => answer.tell(&fault),
    }
    Ok(())
}

// Whether these bytes are no code, or one that is encoded as they are.
fn is_encoded_back(alloc: Global, bytes: &[u8]) -> bool {
    match decode(alloc, bytes) {
        Ok(instrs) => match encode(alloc, instrs.as_slice()) {
            Ok(encoded) => encoded.as_slice() == bytes,
            Err(_) => false,
        },
        Err(_) => true,
    }
}
