//! From the files of a command to the core of their program.

ghost use Rattle.std.specs.Prelude.{◌≡◌, ◌<◌, ◌^◌, List as Seq, length, OnOk};
ghost use Rattle.mg_sources.specs.Files.{Source, HaveKinds, sources};
ghost use Rattle.jv_types.specs.Tables.{program_in};
ghost use Rattle.mg_sources.specs.Sources.{Sourced, AreProgram};
ghost use Rattle.mg_sources.specs.View.{sourced_of};
ghost use Rattle.jv_core.specs.Tree as CoreTree;
ghost use Rattle.mg_refusal.specs.Refusals.{Refusal};
ghost use Rattle.mg_refusal.specs.Order.{Answers, AnswersOnly};
ghost use Rattle.mg_accepted.specs.Program.{HaveCore, FirstRefusal};
ghost use Rattle.mg_accepted.specs.inner.Answers.{AreDeclared};

use crate::judged::{declared, judge};
use jv_core::Core;
use jv_resolve::resolve;
use jv_resolve_law::spelled_is_shaped;
use jv_types::Table;
use mg_refusal::Stop;
use mg_sources::{Sources, read_program};
use mg_text::{Bytes, Text};
use std::alloc::Global;

/// The one core of the program that these files are: each is read by the ending of its name, a local
/// protocol stands for its API and its typestate, and all of it is well typed.
///
/// # Errors
/// `Refused` with the fault of the first file that its reader refuses; else with the first protocol
/// of a role that an earlier one is of; else with the first type fault of what is declared, and then
/// of the methods. `Memory` where memory is wanted, or where a program has more parts than a core
/// can number.
pub fn resolve_program(alloc: Global, names: &[Text], contents: &[Bytes]) -> Result<Core, Stop>
    requires same { length names.now ≡ length contents.now }
    requires count { length contents.now < 2 ^ 32 }
    requires kinds { HaveKinds names.now }
    // What is answered stands for the program that the files are, or is their first refusal.
    ensures answered { Answers (HaveCore (sources names.now contents.now))
        (FirstRefusal (sources names.now contents.now)) result }
    // Files that have a core are answered by it, unless memory runs out.
    ensures only { (core : CoreTree.Program) → HaveCore (sources names.now contents.now) core →
        AnswersOnly (λ c. c ≡ core) result }
    // Files that are refused have no core.
    ensures refused { (r : Refusal) → FirstRefusal (sources names.now contents.now) r → OnOk result ⊥ }
{
    core_of(alloc, names, contents)
}

// The same, without what follows from its being one answer.
fn core_of(alloc: Global, names: &[Text], contents: &[Bytes]) -> Result<Core, Stop>
    requires same { length names.now ≡ length contents.now }
    requires count { length contents.now < 2 ^ 32 }
    requires kinds { HaveKinds names.now }
    ensures { Answers (HaveCore (sources names.now contents.now))
        (FirstRefusal (sources names.now contents.now)) result }
{
    let sources = read_program(alloc, names, contents)?;
    let core = core_in(alloc, &sources);
    drop(sources);
    core
}

// The core of the program that some files are.
fn core_in(alloc: Global, sources: &Sources) -> Result<Core, Stop>
    requires { (files : Seq Source) × AreProgram files (sourced_of sources.now) }
    ensures { (files : Seq Source) → AreProgram files (sourced_of sources.now) → Answers (HaveCore files) (FirstRefusal files) result }
{
    let table = declared(alloc, sources)?;
    let core = core_by(alloc, &table);
    drop(table);
    core
}

// The same, by the table of its declarations, which have no fault.
fn core_by(alloc: Global, table: &Table<'_>) -> Result<Core, Stop>
    requires { (files : Seq Source) × (sourced : Sourced) × AreDeclared files sourced (program_in table.now) }
    ensures { (files : Seq Source) (sourced : Sourced) → AreDeclared files sourced (program_in table.now) →
        Answers (HaveCore files) (FirstRefusal files) result }
{
    spelled_is_shaped();
    judge(alloc, table)?;
    let core = resolve(alloc, table)?;
    Ok(core)
}
