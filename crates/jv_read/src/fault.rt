//! Why the bytes of a file spell no Java source.
//! Faults of tokens and of the grammar become such a fault by `?`.

use jv_lex::LexFault;
use jv_parse::ParseFault;
use mg_text::{Place, Text};

/// Why the bytes of a file spell no Java source, in the order in which faults are judged; of
/// those from `BadByte` to `BadNumber` the first in the text is told. `name` is what is at fault.
#[derive(Debug, Drop)]
pub enum JavaFault {
    /// The file holds over 1,048,576 bytes. The place is the file's start.
    TooLarge { place: Place },
    /// A byte starts no token and nothing between tokens, or the bytes stop to be UTF-8 here.
    BadByte { place: Place },
    /// No `*/` closes the comment that begins here.
    OpenComment { place: Place },
    /// No quote closes the text that begins here before its line or the file ends.
    OpenText { place: Place },
    /// A text has a backslash here that no escape of the language follows.
    BadEscape { place: Place },
    /// A number begins here that is over 2147483648, has a leading zero, or has a letter, `_`,
    /// `$` or `.` directly after.
    BadNumber { place: Place },
    /// A token is a word of Java that isn't supported, or one of `? & | ^ ~`.
    Unsupported { place: Place, name: Text },
    /// The tokens spell no file with statements and expressions at most 200 deep. The place is
    /// that of the first token that can't stand there, or of the last token.
    Syntax { place: Place },
    /// Want of memory.
    Memory,
}

impl From<LexFault> for JavaFault {
    ghost use Rattle.std.specs.Prelude.{◌≡◌};
    ghost use Rattle.jv_read.specs.inner.Stages.{fault_of_tokens};

    ghost from_gives = { λ l e. e ≡ fault_of_tokens l };

    fn from(fault: LexFault) -> JavaFault {
        match fault {
            LexFault::TooLarge { place } => JavaFault::TooLarge { place },
            LexFault::BadByte { place } => JavaFault::BadByte { place },
            LexFault::OpenComment { place } => JavaFault::OpenComment { place },
            LexFault::OpenText { place } => JavaFault::OpenText { place },
            LexFault::BadEscape { place } => JavaFault::BadEscape { place },
            LexFault::BadNumber { place } => JavaFault::BadNumber { place },
            LexFault::Memory => JavaFault::Memory,
        }
    }
}

impl From<ParseFault> for JavaFault {
    ghost use Rattle.std.specs.Prelude.{◌≡◌};
    ghost use Rattle.jv_read.specs.inner.Stages.{fault_of_grammar};

    ghost from_gives = { λ p e. e ≡ fault_of_grammar p };

    fn from(fault: ParseFault) -> JavaFault {
        match fault {
            ParseFault::Unsupported { place, name } => JavaFault::Unsupported { place, name },
            ParseFault::Syntax { place } => JavaFault::Syntax { place },
            ParseFault::Memory => JavaFault::Memory,
        }
    }
}
