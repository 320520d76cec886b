//! Why a file could not be separated into tokens, and why its tokens could not be read.
//! Want of memory becomes such a fault by `?`.

use mg_text::{Memory, Place};

/// Why a text does not separate into tokens.
#[derive(Clone, Copy, Debug)]
pub enum LexFault {
    /// The first offset, in bytes, at which no token and nothing between tokens begins, or at
    /// which the bytes stop to be UTF-8. No token begins at a byte that starts none, at the quote
    /// of a text or the start of a comment that isn't closed, at the quote of a text with a byte
    /// that may not stand there, and at the start of a name of over 255 bytes.
    BadByte(usize),
    /// Want of memory.
    Memory,
}

impl From<Memory> for LexFault {
    ghost use Rattle.std.specs.Prelude.{◌≡◌};
    ghost use Rattle.mg_read.specs.declared.fault.LexFault.TheVariants.{Memory as Want};

    ghost from_gives = { λ _ e. e ≡ Want };

    fn from(_error: Memory) -> LexFault {
        LexFault::Memory
    }
}

/// Why tokens could not be read.
#[derive(Clone, Copy)]
pub enum ParseFault {
    /// Want of memory.
    Memory,
    /// The tokens spell nothing. The place is that of the first token such that the tokens up to
    /// it begin nothing that is spelled. There is none where the tokens end too early.
    Syntax(Option<Place>),
}

impl From<Memory> for ParseFault {
    ghost use Rattle.std.specs.Prelude.{◌≡◌};
    ghost use Rattle.mg_read.specs.declared.fault.ParseFault.TheVariants as E;

    ghost from_gives = { λ _ e. e ≡ E.Memory };

    fn from(_memory: Memory) -> ParseFault {
        ParseFault::Memory
    }
}
