//! The line of a fault.

use cases::Answer;
use jv_read::JavaFault;

/// Adds a fault as a line: its file and place, what it is, and what it names. Want of memory has none.
pub(crate) fn add_line(answer: &mut Answer, fault: &JavaFault) {
    if let Some(file) = file_of(fault) {
        answer.show(&file);
        answer.add(":");
    }
    answer.fault(fault);
}

// The number of the file where a fault stands.
fn file_of(fault: &JavaFault) -> Option<u32> {
    match fault {
        JavaFault::TooLarge { place }
        | JavaFault::BadByte { place }
        | JavaFault::OpenComment { place }
        | JavaFault::OpenText { place }
        | JavaFault::BadEscape { place }
        | JavaFault::BadNumber { place }
        | JavaFault::Unsupported { place, .. }
        | JavaFault::Syntax { place } => Some(place.file),
        JavaFault::Memory => None,
    }
}
