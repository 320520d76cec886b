//! Why a file holds no local protocol: the faults of bytes, of tokens and of the grammar, or a
//! condition that its protocol doesn't meet.

use mg_text::{Memory, Place, Text};
use scr_tree::Condition;

/// Why a file holds no local protocol, in the order in which faults are judged. `name` is what
/// is at fault.
#[derive(Debug, Drop)]
pub enum ScrFault {
    /// The file holds over 1,048,576 bytes. The place is the file's start.
    TooLarge {
        place: Place,
    },
    /// A byte starts no token or separator, a comment or text isn't closed, a name is over 255
    /// bytes long, or the bytes aren't UTF-8.
    BadByte {
        place: Place,
    },
    /// A token is a word that isn't supported.
    Unsupported {
        place: Place,
        name: Text,
    },
    /// No tree with statements at most 200 deep spells the tokens. The place is the first token
    /// that can't stand there, or just behind the last byte.
    Syntax {
        place: Place,
    },
    /// The tree doesn't meet a condition. `name` is empty where the condition names nothing.
    Unmet {
        condition: Condition,
        place: Place,
        name: Text,
    },
    /// Want of memory.
    Memory,
}

impl From<Memory> for ScrFault {
    ghost use Rattle.std.specs.Prelude.{◌≡◌};
    ghost use Rattle.scr_read.specs.declared.fault.ScrFault.TheVariants as E;

    ghost from_gives = { λ _ e. e ≡ E.Memory };

    fn from(_memory: Memory) -> ScrFault {
        ScrFault::Memory
    }
}
