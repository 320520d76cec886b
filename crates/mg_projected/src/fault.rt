//! Why a global protocol isn't projected.

use mg_text::Memory;
use scr_global_read::GlobalFault;
use scr_project::ProjectFault;

/// Why the roles of a file's global protocol have no files.
#[derive(Drop)]
pub enum ProjectedFault {
    /// The file holds no global protocol.
    Unread(GlobalFault),
    /// A role has no local protocol; it is the first such role.
    Unprojected(ProjectFault),
    /// Want of memory.
    Memory,
}

impl From<Memory> for ProjectedFault {
    ghost use Rattle.std.specs.Prelude.{◌≡◌};
    ghost use Rattle.mg_projected.specs.declared.fault.ProjectedFault.TheVariants as E;

    ghost from_gives = { λ _ e. e ≡ E.Memory };

    fn from(_memory: Memory) -> ProjectedFault {
        ProjectedFault::Memory
    }
}
