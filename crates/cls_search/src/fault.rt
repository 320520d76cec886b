//! Why a program isn't verified.

use mg_text::{Memory, Text};

/// Why a program isn't verified.
#[derive(Drop)]
pub enum VerifyFault {
    /// This method has no typing, and it is the first such one, by the order of the classes and of
    /// their methods.
    Unverified { class: Text, method: Text },
    Memory,
}

impl From<Memory> for VerifyFault {
    ghost use Rattle.std.specs.Prelude.{◌≡◌};
    ghost use Rattle.cls_search.specs.declared.fault.VerifyFault.TheVariants as faults;

    ghost from_gives = { λ _ e. e ≡ faults.Memory };

    fn from(_memory: Memory) -> VerifyFault {
        VerifyFault::Memory
    }
}
