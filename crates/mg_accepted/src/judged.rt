//! Whether a program is well typed.

ghost use Rattle.std.specs.Prelude.{◌≡◌, IfOk, Some, None, length};
ghost use Rattle.jv_rules.specs.Faults.{IsTableFault, IsFault};
ghost use Rattle.jv_types.specs.Tables.{program_in};
ghost use Rattle.mg_refusal.specs.Order.{Answers, Finds};
ghost use Rattle.mg_sources.specs.View.{sourced_of};
ghost use Rattle.mg_accepted.specs.Program.{TypeRefusal, type_refusal};

use crate::refusal::stop_of;
use jv_types::{Table, table, type_check};
use mg_refusal::Stop;
use mg_sources::Sources;
use std::alloc::Global;

/// The table of a program whose declarations have no type fault; their first one is the error.
pub(crate) fn declared<'a>(alloc: Global, sources: &'a Sources) -> Result<Table<'a>, Stop>
    requires { length sources.now.origins.items ≡ length sources.now.typestates.items }
    ensures answered { Answers (λ table. IsTableFault (sourced_of sources.now).program (sourced_of sources.now).origins None)
        (TypeRefusal (sourced_of sources.now)) result }
    ensures program { IfOk result (λ table. program_in table ≡ (sourced_of sources.now).program) }
{
    match table(
        alloc,
        sources.files.as_slice(),
        sources.typestates.as_slice(),
        sources.origins.as_slice(),
    ) {
        Ok(table) => Ok(table),
        Err(fault) => Err(stop_of(fault)),
    }
}

/// Judges the methods of a table; their first type fault is the error.
pub(crate) fn judge(alloc: Global, table: &Table<'_>) -> Result<(), Stop>
    ensures { Answers (λ done. IsFault (program_in table.now) None)
        (Finds (λ f. IsFault (program_in table.now) (Some f)) type_refusal) result }
{
    match type_check(alloc, table) {
        Ok(()) => Ok(()),
        Err(fault) => Err(stop_of(fault)),
    }
}
