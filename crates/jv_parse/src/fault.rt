//! Why the tokens of a file could not be read.

use mg_text::{Memory, Place, Text};

/// Why the tokens of a file could not be read, in the order in which faults are judged.
#[derive(Drop)]
pub enum ParseFault {
    /// A token is a word of Java that isn't supported, or one of `? & | ^ ~`. The first one is
    /// told, with its text.
    Unsupported { place: Place, name: Text },
    /// The tokens spell no file. The place is that of the first token such that the tokens up to
    /// it begin no file, or of a statement that stands too deep. Where the tokens end too early
    /// it is that of the last token, and the file's start where there is none.
    Syntax { place: Place },
    /// Want of memory.
    Memory,
}

impl From<Memory> for ParseFault {
    ghost use Rattle.std.specs.Prelude.{◌≡◌};
    ghost use Rattle.jv_parse.specs.declared.fault.ParseFault.TheVariants as faults;

    ghost from_gives = { λ _ e. e ≡ faults.Memory };

    fn from(_memory: Memory) -> ParseFault {
        ParseFault::Memory
    }
}
