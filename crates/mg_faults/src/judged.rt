//! What is found of the files of a command: that they are accepted, or all that is wrong with them.

ghost use Rattle.std.specs.Prelude.{◌≡◌, ◌<◌, ◌^◌, List as Seq, IfOk, length};
ghost use Rattle.jv_core.specs.Tree as CoreTree;
ghost use Rattle.mg_refusal.specs.Refusals.{Refusal as Refused};
ghost use Rattle.mg_sources.specs.Files.{Source, HaveKinds, sources};
ghost use Rattle.mg_accepted.specs.Program.{HaveCore};
ghost use Rattle.mg_accepted.specs.Program as program;
ghost use Rattle.mg_accepted.specs.Accepted.{AreAccepted, FirstRefusal};
ghost use Rattle.mg_faults.specs.Faults.{AllRefusals};
ghost use Rattle.mg_faults.specs.View.{IsFound, IsAccepted, IsToldOf};

use crate::readings::read_each;
use crate::said::told;
use jv_core::Core;
use mg_accepted::{AcceptedProgram, resolve_program};
use mg_refusal::{Refusal, Stop};
use mg_text::{Bytes, Memory, Text};
use std::alloc::Global;
use use_verdict::{accepted, find_usages};

/// What is found of the files of a command.
#[derive(Drop)]
pub enum Finding {
    /// They are accepted: their core, and its least tables.
    Accepted(AcceptedProgram),
    /// They are refused, so.
    Refused(Vec<Refusal>),
}

// All that is wrong with files whose first refusal, by their readers, roles or types, is this.
fn all_of(
    alloc: Global,
    names: &[Text],
    contents: &[Bytes],
    first: Refusal,
) -> Result<Vec<Refusal>, Memory>
    requires same { length names.now ≡ length contents.now }
    requires count { length contents.now < 2 ^ 32 }
    requires kinds { HaveKinds names.now }
    requires first { program.FirstRefusal (sources names.now contents.now) first }
    ensures { IfOk result (λ v. AllRefusals (sources names.now contents.now) v.items) }
{
    let mut refusals = read_each(alloc, names, contents)?;
    if !refusals.as_slice().is_empty() {
        return Ok(refusals);
    }
    refusals.push(first)?;
    Ok(refusals)
}

// What is found of a core by its usages.
fn by_usages(alloc: Global, core: Core) -> Result<Finding, Memory>
    ensures { IfOk result (λ f. (files : Seq Source) → HaveCore files core → IsFound files f) }
{
    let usages = find_usages(alloc, &core)?;
    match accepted(usages) {
        Ok(accepted) => Ok(Finding::Accepted(AcceptedProgram { core, accepted })),
        Err(failed) => {
            let said = told(alloc, &core, failed)?;
            drop(core);
            Ok(Finding::Refused(said))
        }
    }
}

/// What is found of these files: that they are a program whose usages are right, or all that is wrong with them: the
/// refusals of the readers, one for each file that is refused; else the first protocol of a role that an earlier one is
/// of; else the first type fault; else all demands that fail under the least tables, in order, each line once.
///
/// # Errors
/// `Memory` where memory is wanted, or where a program has more parts than a core can number.
pub fn find(alloc: Global, names: &[Text], contents: &[Bytes]) -> Result<Finding, Memory>
    requires same { length names.now ≡ length contents.now }
    requires count { length contents.now < 2 ^ 32 }
    requires kinds { HaveKinds names.now }
    // What is answered is the core that stands for the files, with its least tables, or all that is wrong with them.
    ensures found { IfOk result (λ f. IsFound (sources names.now contents.now) f) }
    // Accepted files are answered by their core.
    ensures only { (core : CoreTree.Program) → AreAccepted (sources names.now contents.now) core → IfOk result (λ f. IsAccepted core f) }
    // Of files that are refused the first refusal is told, and those with it.
    ensures refused { (r : Refused) → FirstRefusal (sources names.now contents.now) r → IfOk result (λ f. IsToldOf r f) }
{
    found(alloc, names, contents)
}

// The same, without what follows from its being one answer.
fn found(alloc: Global, names: &[Text], contents: &[Bytes]) -> Result<Finding, Memory>
    requires same { length names.now ≡ length contents.now }
    requires count { length contents.now < 2 ^ 32 }
    requires kinds { HaveKinds names.now }
    ensures { IfOk result (λ f. IsFound (sources names.now contents.now) f) }
{
    match resolve_program(alloc, names, contents) {
        Ok(core) => by_usages(alloc, core),
        Err(Stop::Refused(first)) => {
            let all = all_of(alloc, names, contents, first)?;
            Ok(Finding::Refused(all))
        }
        Err(Stop::Memory) => Err(Memory),
    }
}
