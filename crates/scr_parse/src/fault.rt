//! Why tokens could not be read.

use mg_text::{Memory, Place};

/// Why tokens could not be read.
#[derive(Clone, Copy)]
pub enum ParseFault {
    /// Want of memory.
    Memory,
    /// The tokens spell no file. The place is that of the first token such that the tokens up to
    /// it begin no file, or of a statement that stands too deep. There is none where the tokens
    /// end too early.
    Syntax(Option<Place>),
}

impl From<Memory> for ParseFault {
    ghost use Rattle.std.specs.Prelude.{◌≡◌};
    ghost use Rattle.scr_parse.specs.declared.fault.ParseFault.TheVariants as E;

    ghost from_gives = { λ _ e. e ≡ E.Memory };

    fn from(_memory: Memory) -> ParseFault {
        ParseFault::Memory
    }
}
