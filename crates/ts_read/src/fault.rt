//! Why a typestate file is refused.
//! Each fault has its place; those of names have the name, too.

use mg_text::{Memory, Place, Text};

/// Why a typestate file is refused, in the order in which it is judged.
#[derive(Debug, Drop)]
pub enum TsFault {
    /// The file holds over 1,048,576 bytes, or spells over 1,000 states. The place is the file's
    /// start.
    TooLarge { place: Place },
    /// A byte starts no token or separator, a comment isn't closed, a name is over 255 bytes
    /// long, or the bytes aren't UTF-8.
    BadByte { place: Place },
    /// No file is spelled by the tokens. The place is the first token that can't stand there, or
    /// just behind the last byte.
    Syntax { place: Place },
    /// Two states have one name. The place is the second one's name.
    DuplicateState { place: Place, name: Text },
    /// A target is neither `end` nor a state.
    UnknownState { place: Place, name: Text },
    /// A method stands twice in a state, or `drop: end` does, with the name `drop`. The place is the
    /// second one's name.
    DuplicateMethod { place: Place, name: Text },
    /// A method has another result or other parameters than an earlier one of its name.
    SignatureDiffers { place: Place, name: Text },
    /// A label stands twice in one list. The place is the second one.
    DuplicateLabel { place: Place, name: Text },
    /// A state is named `end`.
    ReservedEnd { place: Place, name: Text },
    /// Want of memory.
    Memory,
}

impl From<Memory> for TsFault {
    ghost use Rattle.std.specs.Prelude.{◌≡◌};
    ghost use Rattle.ts_read.specs.declared.fault.TsFault.TheVariants.{Memory as Want};

    ghost from_gives = { λ _ e. e ≡ Want };

    fn from(_error: Memory) -> TsFault {
        TsFault::Memory
    }
}
