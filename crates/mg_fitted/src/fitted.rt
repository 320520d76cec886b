//! From the files of a command to the verdict on their roles.

ghost use Rattle.std.specs.Prelude.{◌≡◌, ◌<◌, ◌^◌, ℕ, List as Seq, OnOk, length, map, ⊤};
ghost use Rattle.scr_tree.specs.Local.{tree_of as local_of};
ghost use Rattle.scr_global_tree.specs.Global.{tree_of};
ghost use Rattle.mg_refusal.specs.Refusals.{Refusal as Told};
ghost use Rattle.mg_refusal.specs.Order.{Answers, AnswersOnly};
ghost use Rattle.mg_sources.specs.Files.{HaveKinds, Source, source_of, sources};
ghost use Rattle.mg_accepted.specs.Accepted.{AreAccepted};
ghost use Rattle.mg_compile.specs.View.{IsOfFiles};
ghost use Rattle.mg_projected.specs.Told.{AreLocals};
ghost use Rattle.mg_runs.specs.Commanded as running;
ghost use Rattle.mg_fits.specs.Fits.{IsUnfit};
ghost use Rattle.mg_fitted.specs.Fitted.{CanRun, AreFitted, FirstRefusal};
ghost use Rattle.mg_fitted.specs.inner.Fit.{IsFit};

use fit_judge::first_unfit;
use jv_core::Core;
use mg_accepted::accept;
use mg_compile::class_files;
use mg_projected::{Locals, project_locals};
use mg_refusal::Stop;
use mg_runs::{RoleMain, first_without, no_main};
use mg_sources::read_parts;
use mg_text::{Bytes, Text};
use std::alloc::Global;

/// Tells whether these files, whose classes the roles run, fit the global protocol that the bytes of
/// one more file spell. Its number is the next behind theirs.
///
/// # Errors
/// `Refused` with the first refusal of the global protocol, as of `project`; else with that of the
/// program; else with the first role whose class has no `main`; else with the first size that is too
/// large in a class file; else by the first condition of fitting that is at fault. `Memory` where
/// memory is wanted.
pub fn fit(
    alloc: Global,
    names: &[Text],
    contents: &[Bytes],
    global: &[u8],
    mains: &[RoleMain],
) -> Result<(), Stop>
    requires same { length names.now ≡ length contents.now }
    requires count { length contents.now < 2 ^ 32 }
    requires kinds { HaveKinds names.now }
    // Whatever the file of the global protocol is called, the files fit, or what is answered is the first refusal.
    ensures answered { (name : Seq ℕ) →
        Answers (λ done. AreFitted (source_of (length names.now) name global.now) (sources names.now contents.now) mains.now)
        (FirstRefusal (source_of (length names.now) name global.now) (sources names.now contents.now) mains.now) result }
    // Files that fit aren't refused.
    ensures only { (name : Seq ℕ) → AreFitted (source_of (length names.now) name global.now) (sources names.now contents.now) mains.now →
        AnswersOnly (λ done. ⊤) result }
    // Files that are refused don't fit.
    ensures refused { (name : Seq ℕ) (r : Told) →
        FirstRefusal (source_of (length names.now) name global.now) (sources names.now contents.now) mains.now r → OnOk result ⊥ }
{
    fitted(alloc, names, contents, global, mains)
}

// The same, without what follows from its being one answer.
fn fitted(
    alloc: Global,
    names: &[Text],
    contents: &[Bytes],
    global: &[u8],
    mains: &[RoleMain],
) -> Result<(), Stop>
    requires same { length names.now ≡ length contents.now }
    requires count { length contents.now < 2 ^ 32 }
    requires kinds { HaveKinds names.now }
    ensures { (name : Seq ℕ) →
        Answers (λ done. AreFitted (source_of (length names.now) name global.now) (sources names.now contents.now) mains.now)
        (FirstRefusal (source_of (length names.now) name global.now) (sources names.now contents.now) mains.now) result }
{
    let number = number_behind(names);
    let projected = project_locals(alloc, number, global)?;
    let program = accept(alloc, names, contents)?;
    can_run(alloc, &program.core, mains)?;
    judged(alloc, names, contents, &projected, &program.core, mains)
}

// The number behind those of the files of these names.
fn number_behind(names: &[Text]) -> u32
    requires { length names.now < 2 ^ 32 }
    ensures { result ≡ length names.now }
{
    names.len() as u32
}

// Tells whether the roles can be run, of the core of accepted files. The class files are made, and
// let go of.
fn can_run(alloc: Global, core: &Core, mains: &[RoleMain]) -> Result<(), Stop>
    requires { IsOfFiles core.now }
    ensures { (files : Seq Source) → AreAccepted files core.now →
        Answers (λ done. CanRun files mains.now core.now) (running.FirstRefusal files mains.now) result }
{
    if let Some(number) = first_without(core, mains) {
        let refusal = no_main(&mains[number].class)?;
        return Err(Stop::Refused(refusal));
    }
    let files = class_files(alloc, core)?;
    drop(files);
    Ok(())
}

// The verdict by the conditions of fitting.
fn judged(
    alloc: Global,
    names: &[Text],
    contents: &[Bytes],
    projected: &Locals,
    core: &Core,
    mains: &[RoleMain],
) -> Result<(), Stop>
    requires same { length names.now ≡ length contents.now }
    requires count { length contents.now < 2 ^ 32 }
    requires kinds { HaveKinds names.now }
    requires projected { (source : Source) × AreLocals source (tree_of projected.now.global) (map local_of projected.now.locals.items) }
    requires accepted { AreAccepted (sources names.now contents.now) core.now }
    ensures { Answers (λ done. IsFit (tree_of projected.now.global) (sources names.now contents.now) mains.now core.now)
        (IsUnfit (tree_of projected.now.global) (sources names.now contents.now) mains.now core.now) result }
{
    let parts = read_parts(alloc, names, contents)?;
    let global = &projected.global;
    let locals = projected.locals.as_slice();
    let unfit = first_unfit(alloc, global, locals, parts.as_slice(), core, mains)?;
    match unfit {
        Some(refusal) => Err(Stop::Refused(refusal)),
        None => Ok(()),
    }
}
