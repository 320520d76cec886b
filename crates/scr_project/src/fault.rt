//! Why a global protocol has no local one for a role.

use mg_text::{Memory, Place, Text};
use scr_read::ScrFault;

/// Why a global protocol has no local protocol for a role.
#[derive(Drop)]
pub enum ProjectFault {
    /// The role can't tell which branch of a choice of another role was taken. The place is that of
    /// the first such choice, and the name is the role's.
    NotMergeable {
        place: Place,
        name: Text,
    },
    /// What the role does is no local protocol: `fault` says which condition it doesn't meet. The
    /// place is the file's start, and the name is the role's.
    Unprojected {
        place: Place,
        name: Text,
        fault: ScrFault,
    },
    /// Want of memory.
    Memory,
}

impl From<Memory> for ProjectFault {
    ghost use Rattle.std.specs.Prelude.{◌≡◌};
    ghost use Rattle.scr_project.specs.declared.fault.ProjectFault.TheVariants as E;

    ghost from_gives = { λ _ e. e ≡ E.Memory };

    fn from(_memory: Memory) -> ProjectFault {
        ProjectFault::Memory
    }
}
