//! Class files that are read, and written as they were.

use crate::machine::spelling::{add_bytes, byte_of, number_of};
use crate::machine::unanswered::Unanswered;
use cases::Answer;
use cls_bytes::{ClassFault, read_class, write_class};
use cls_code::CodeFault;
use cls_tree::Class;
use std::alloc::Global;

/// Tells what the class of a case has, or its fault.
pub fn tell(
    alloc: Global,
    answer: &mut Answer,
    hello: &[u8],
    given: &str,
) -> Result<(), Unanswered> {
    let mut bytes = Vec::new(alloc);
    add_lines(&mut bytes, hello, given)?;
    let bytes = bytes.as_slice();
    if !is_written_back(alloc, bytes) {
        answer.add("written otherwise");
    }
    match read(alloc, bytes) {
        Ok(class) => tell_parts(answer, &class),
        Err(fault) => answer.tell(&fault),
    }
    Ok(())
}

// Tells the numbers of a class, its own, that of the class above and its access, then how many
// constants, fields and attributes it has, and its methods.
fn tell_parts(answer: &mut Answer, class: &Class) {
    answer.tell(&(class.this_class, class.super_class, class.access));
    answer.line();
    answer.tell(&(class.pool.len(), class.fields.len(), class.attributes.len()));
    for method in class.methods.as_slice() {
        answer.line();
        answer.tell(method);
    }
}

// Adds the bytes that lines give.
fn add_lines(bytes: &mut Vec<u8>, hello: &[u8], lines: &str) -> Result<(), Unanswered> {
    for line in lines.split('\n') {
        add_line(bytes, hello, line)?;
    }
    Ok(())
}

// Does what a line says: it takes the first bytes of Hello, puts another byte at a place, or adds
// those that it spells.
fn add_line(bytes: &mut Vec<u8>, hello: &[u8], line: &str) -> Result<(), Unanswered> {
    if let Some(count) = line.strip_prefix("hello ") {
        let front = front_of(hello, count).ok_or(Unanswered::Form)?;
        bytes.extend_from_slice(front)?;
        return Ok(());
    }
    match line.strip_prefix("at ") {
        Some(change) => put(bytes, change).ok_or(Unanswered::Form),
        None => add_bytes(bytes, line),
    }
}

// So many bytes of Hello.
fn front_of<'a>(hello: &'a [u8], count: &str) -> Option<&'a [u8]> {
    let count: usize = number_of(count)?;
    hello.get(..count)
}

// Puts a byte at a place.
fn put(bytes: &mut Vec<u8>, change: &str) -> Option<()> {
    let (place, byte) = change.split_once(' ')?;
    let place: usize = number_of(place)?;
    let byte = byte_of(byte)?;
    let slot = bytes.get_mut(place)?;
    *slot = byte;
    Some(())
}

/// The class that these bytes spell.
pub fn read(alloc: Global, bytes: &[u8]) -> Result<Class, ClassFault> {
    read_class(alloc, bytes)
}

/// Whether these bytes are refused by a fault that stands in them, or spell a class that is written
/// as they are.
pub fn is_written_back(alloc: Global, bytes: &[u8]) -> bool {
    match read_class(alloc, bytes) {
        Err(fault) => is_within(fault, bytes),
        Ok(class) => match write_class(alloc, &class) {
            Ok(written) => written.as_slice() == bytes,
            Err(_) => false,
        },
    }
}

// Whether a fault stands in these bytes, or at their end.
fn is_within(fault: ClassFault, bytes: &[u8]) -> bool {
    match offset_of(fault) {
        Some(offset) => offset as usize <= bytes.len(),
        None => false,
    }
}

// The offset of a fault; `None` where memory ran out.
fn offset_of(fault: ClassFault) -> Option<u32> {
    match fault {
        ClassFault::BadMagic { offset }
        | ClassFault::Version { offset }
        | ClassFault::Short { offset }
        | ClassFault::TrailingBytes { offset }
        | ClassFault::BadTag { offset }
        | ClassFault::BadIndex { offset }
        | ClassFault::BadText { offset }
        | ClassFault::BadAttribute { offset }
        | ClassFault::Unsupported { offset } => Some(offset),
        ClassFault::Code(fault) => code_offset(fault),
        ClassFault::Memory => None,
    }
}

// The offset of a fault of code; `None` where memory ran out.
fn code_offset(fault: CodeFault) -> Option<u32> {
    match fault {
        CodeFault::CodeTooLong { offset }
        | CodeFault::UnknownOpcode { offset }
        | CodeFault::Short { offset }
        | CodeFault::BadSwitch { offset }
        | CodeFault::JumpOutside { offset } => Some(offset),
        CodeFault::Memory => None,
    }
}
