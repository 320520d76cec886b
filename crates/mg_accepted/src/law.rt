//! Which files have a core.
//! There is no running code here; the function carries a law.

ghost use Rattle.mg_accepted.specs.Laws.{WellTypedIsResolved};

use jv_resolve_law::{resolving_is_right, resolving_is_total, spelled_is_shaped};

/// A well typed program of files is resolved to a core, which is theirs where it is within the bounds.
pub fn well_typed_is_resolved()
    ensures { WellTypedIsResolved }
{
    spelled_is_shaped();
    resolving_is_right();
    resolving_is_total();
}
