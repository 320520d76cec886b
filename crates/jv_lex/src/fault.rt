//! Why the text of a Java source could not be separated into tokens.
//! Want of memory becomes such a fault by `?`.

use mg_text::{Memory, Place};

/// Why a text does not separate into tokens. Over a million bytes nothing is looked at; of the
/// other faults but `Memory` the first in the text is told.
#[derive(Clone, Copy)]
pub enum LexFault {
    /// The file holds over 1,048,576 bytes. The place is the file's start.
    TooLarge { place: Place },
    /// A byte starts no token and nothing between tokens, a backslash begins an escape of Unicode
    /// in a comment, or the bytes stop to be UTF-8 here.
    BadByte { place: Place },
    /// No `*/` closes the comment that begins here.
    OpenComment { place: Place },
    /// No quote closes the text that begins here before its line or the file ends.
    OpenText { place: Place },
    /// A text has a backslash here that no escape of the language follows.
    BadEscape { place: Place },
    /// A number begins here that is over 2147483648, has a leading zero, or has a letter, `_`,
    /// `$` or `.` directly after.
    BadNumber { place: Place },
    /// Want of memory.
    Memory,
}

impl From<Memory> for LexFault {
    ghost use Rattle.std.specs.Prelude.{◌≡◌};
    ghost use Rattle.jv_lex.specs.declared.fault.LexFault.TheVariants.{Memory as Want};

    ghost from_gives = { λ _ e. e ≡ Want };

    fn from(_error: Memory) -> LexFault {
        LexFault::Memory
    }
}

/// What is wrong where no piece of a text stands.
#[derive(Clone, Copy)]
pub(crate) enum Cause {
    /// Nothing begins with the byte, or in a comment an escape of Unicode.
    BadByte,
    /// A comment isn't closed.
    OpenComment,
    /// A text isn't closed.
    OpenText,
    /// A backslash begins no escape.
    BadEscape,
    /// A digit begins no number.
    BadNumber,
}
