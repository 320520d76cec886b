//! What the readers of files share: cutting bytes into pieces, reading tokens exactly, and the first fault.
//! The definitions say what a reader that is exact promises; the lemmas serve each of them.
#![tactic(auto)]

mod fault;
mod front;
mod placing;

pub use fault::{LexFault, ParseFault};
pub use front::{
    FrontPiece, PieceKind, ascii_text, comment_of, first_of, ill_formed_at, line_len, name_len,
    piece_of,
};
use mg_text::Memory;
pub use placing::place_within;
use std::alloc::{AllocError, AllocFailed};

/// Why tokens could not be read.
#[derive(Clone, Copy)]
pub enum ReadError {
    /// Want of memory.
    Memory,
    /// The tokens are not what is read.
    Syntax,
}

impl From<Memory> for ReadError {
    ghost use Rattle.std.specs.Prelude.{◌≡◌};
    ghost use Rattle.mg_read.specs.declared.ReadError.TheVariants as E;

    ghost from_gives = { λ _ e. e ≡ E.Memory };

    fn from(_memory: Memory) -> ReadError {
        ReadError::Memory
    }
}

impl From<AllocError> for ReadError {
    ghost use Rattle.std.specs.Prelude.{◌≡◌};
    ghost use Rattle.mg_read.specs.declared.ReadError.TheVariants as E;

    ghost from_gives = { λ _ e. e ≡ E.Memory };

    fn from(_error: AllocError) -> ReadError {
        ReadError::Memory
    }
}

impl<T: Drop> From<AllocFailed<T>> for ReadError {
    ghost use Rattle.std.specs.Prelude.{◌≡◌};
    ghost use Rattle.mg_read.specs.declared.ReadError.TheVariants as E;

    ghost from_gives = { λ _ e. e ≡ E.Memory };

    fn from(_error: AllocFailed<T>) -> ReadError {
        ReadError::Memory
    }
}
