//! Why a command goes no further with its files.

use crate::refusal::Refusal;
use mg_text::{Memory, Place, Text};
use std::alloc::{AllocError, AllocFailed};

/// Why a command goes no further with its files.
#[derive(Drop)]
pub enum Stop {
    /// They are refused.
    Refused(Refusal),
    /// Want of memory.
    Memory,
}

impl Stop {
    ghost use Rattle.std.specs.Prelude.{◌≡◌, []};
    ghost use Rattle.mg_refusal.specs.Refusals.{refusal_at};
    ghost use Rattle.mg_refusal.specs.Order.{stop_in};

    /// The refusal at a place of a text, where nothing is named.
    pub fn at(kind: &'static str, place: Place) -> Stop
        ensures { result ≡ Stop.Refused (refusal_at kind.now place []) }
    {
        Stop::Refused(Refusal::at(kind, place))
    }

    /// The refusal at a place of a text, with what is named there; an empty name names nothing.
    pub fn named(kind: &'static str, place: Place, name: Text) -> Stop
        ensures { result ≡ Stop.Refused (refusal_at kind.now place name) }
    {
        Stop::Refused(Refusal::named(kind, place, name))
    }

    /// The same at that place of the text of this number.
    pub fn in_file(self, file: u32) -> Stop
        ensures { result ≡ stop_in file self }
    {
        match self {
            Stop::Refused(refusal) => Stop::Refused(refusal.in_file(file)),
            Stop::Memory => Stop::Memory,
        }
    }
}

impl From<Memory> for Stop {
    ghost use Rattle.std.specs.Prelude.{◌≡◌};
    ghost use Rattle.mg_refusal.specs.declared.stop.Stop.TheVariants as E;

    ghost from_gives = { λ _ e. e ≡ E.Memory };

    fn from(_memory: Memory) -> Stop {
        Stop::Memory
    }
}

impl From<AllocError> for Stop {
    ghost use Rattle.std.specs.Prelude.{◌≡◌};
    ghost use Rattle.mg_refusal.specs.declared.stop.Stop.TheVariants as E;

    ghost from_gives = { λ _ e. e ≡ E.Memory };

    fn from(_error: AllocError) -> Stop {
        Stop::Memory
    }
}

impl<T: Drop> From<AllocFailed<T>> for Stop {
    ghost use Rattle.std.specs.Prelude.{◌≡◌};
    ghost use Rattle.mg_refusal.specs.declared.stop.Stop.TheVariants as E;

    ghost from_gives = { λ _ e. e ≡ E.Memory };

    fn from(_error: AllocFailed<T>) -> Stop {
        Stop::Memory
    }
}
