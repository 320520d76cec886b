//! Whole programs: all type conditions.

ghost use Rattle.std.specs.Prelude.{◌≡◌, IfErr, OnOk, length};
ghost use Rattle.jv_rules.specs.Faults.{IsWellTyped};
ghost use Rattle.jv_types.specs.Outcome.{TellsFault};
ghost use Rattle.jv_types.specs.View.{program_of};
ghost use Rattle.jv_types.specs.Whole.{IsTypeFault};

use crate::declarations::table;
use crate::fault::TypeFault;
use crate::methods::type_check;
use jv_tree::File;
use std::alloc::Global;
use ts_tree::Typestate;

/// Judges all type conditions of a program. `origins` has the number of the file of each
/// typestate, in their order.
///
/// # Errors
/// The faults of `table`, then those of `type_check`; and `Memory`.
pub fn judge(
    alloc: Global,
    files: &[File],
    typestates: &[Typestate],
    origins: &[u32],
) -> Result<(), TypeFault>
    requires { length origins.now ≡ length typestates.now }
    ensures fine { OnOk result (IsWellTyped (program_of files.now typestates.now)) }
    ensures fault { IfErr result (λ e. TellsFault (IsTypeFault (program_of files.now typestates.now) origins.now) e) }
{
    let table = table(alloc, files, typestates, origins)?;
    type_check(alloc, &table)
}
