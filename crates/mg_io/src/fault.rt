//! Why the outside refused a call.

use mg_text::Memory;
use std::alloc::{AllocError, AllocFailed};
use thiserror::Error;

/// Why the outside refused a call.
#[derive(Clone, Copy, Debug, PartialEq, Eq, Error)]
pub enum IoFault {
    /// The file or stream refused it. The folder's list of names, or the sink's count, has grown.
    #[error("refused by the system")]
    Failed,
    /// Want of memory. Nothing outside has changed.
    #[error("out of memory")]
    Memory,
}

impl From<Memory> for IoFault {
    ghost use Rattle.std.specs.Prelude.{◌≡◌};
    ghost use Rattle.mg_io.specs.declared.fault.IoFault.TheVariants as E;

    ghost from_gives = { λ _ e. e ≡ E.Memory };

    fn from(_memory: Memory) -> IoFault {
        IoFault::Memory
    }
}

impl From<AllocError> for IoFault {
    ghost use Rattle.std.specs.Prelude.{◌≡◌};
    ghost use Rattle.mg_io.specs.declared.fault.IoFault.TheVariants as E;

    ghost from_gives = { λ _ e. e ≡ E.Memory };

    fn from(_error: AllocError) -> IoFault {
        IoFault::Memory
    }
}

impl<T: Drop> From<AllocFailed<T>> for IoFault {
    ghost use Rattle.std.specs.Prelude.{◌≡◌};
    ghost use Rattle.mg_io.specs.declared.fault.IoFault.TheVariants as E;

    ghost from_gives = { λ _ e. e ≡ E.Memory };

    fn from(_error: AllocFailed<T>) -> IoFault {
        IoFault::Memory
    }
}
