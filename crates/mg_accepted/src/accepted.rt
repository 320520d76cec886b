//! From the files of a command to its accepted program.

ghost use Rattle.std.specs.Prelude.{◌≡◌, ◌<◌, ◌^◌, length, OnOk};
ghost use Rattle.jv_core.specs.Tree as CoreTree;
ghost use Rattle.mg_sources.specs.Files.{HaveKinds, sources};
ghost use Rattle.use_verdict.specs.Verdict.{AreAnswer, FailsFirst};
ghost use Rattle.mg_refusal.specs.Refusals.{Refusal};
ghost use Rattle.mg_refusal.specs.Order.{Finds, Answers, AnswersOnly};
ghost use Rattle.mg_accepted.specs.Demands.{demand_refusal};
ghost use Rattle.mg_accepted.specs.Accepted.{AreAccepted, FirstRefusal};
ghost use Rattle.mg_accepted.specs.View.{IsProgramOf};

use crate::program::resolve_program;
use crate::unmet::stop_of;
use jv_core::Core;
use mg_refusal::Stop;
use mg_text::{Bytes, Text};
use std::alloc::Global;
use use_check::{Accepted, check};

/// A program whose usages are right: its core, and its least tables.
#[derive(Drop)]
pub struct AcceptedProgram {
    pub core: Core,
    pub accepted: Accepted,
}

/// The accepted program that these files are: each is read by the ending of its name, all of it is
/// well typed, and some tables solve its core.
///
/// # Errors
/// `Refused` with the fault of the first file that its reader refuses; else with the first protocol
/// of a role that an earlier one is of; else with the first type fault of what is declared, and then
/// of the methods; else with the first demand that fails under the least tables. `Memory` where
/// memory is wanted, or where a program has more parts than a core can number.
pub fn accept(alloc: Global, names: &[Text], contents: &[Bytes]) -> Result<AcceptedProgram, Stop>
    requires same { length names.now ≡ length contents.now }
    requires count { length contents.now < 2 ^ 32 }
    requires kinds { HaveKinds names.now }
    // What is answered is the core that stands for the files, with its least tables, or their first refusal.
    ensures answered { Answers (IsProgramOf (sources names.now contents.now)) (FirstRefusal (sources names.now contents.now)) result }
    // Accepted files are answered by their core, unless memory runs out.
    ensures only { (core : CoreTree.Program) → AreAccepted (sources names.now contents.now) core →
        AnswersOnly (λ a. a.core ≡ core) result }
    // Files that are refused aren't accepted.
    ensures refused { (r : Refusal) → FirstRefusal (sources names.now contents.now) r → OnOk result ⊥ }
{
    verdict(alloc, names, contents)
}

// The same, without what follows from its being one answer.
fn verdict(alloc: Global, names: &[Text], contents: &[Bytes]) -> Result<AcceptedProgram, Stop>
    requires same { length names.now ≡ length contents.now }
    requires count { length contents.now < 2 ^ 32 }
    requires kinds { HaveKinds names.now }
    ensures { Answers (IsProgramOf (sources names.now contents.now)) (FirstRefusal (sources names.now contents.now)) result }
{
    let core = resolve_program(alloc, names, contents)?;
    match usages(alloc, &core) {
        Ok(accepted) => Ok(AcceptedProgram { core, accepted }),
        Err(stop) => {
            drop(core);
            Err(stop)
        }
    }
}

// The verdict on the usages of a core.
fn usages(alloc: Global, core: &Core) -> Result<Accepted, Stop>
    ensures { Answers (λ a. AreAnswer core.now a.tables) (Finds (FailsFirst core.now) (demand_refusal core.now)) result }
{
    match check(alloc, core) {
        Ok(accepted) => Ok(accepted),
        Err(fault) => {
            let stop = stop_of(alloc, core, &fault);
            drop(fault);
            Err(stop)
        }
    }
}
