//! From the files of a command to the run of its roles.

ghost use Rattle.std.specs.Prelude.{◌≡◌, ◌<◌, ◌^◌, ℕ, List as Seq, IfOk, OnOk, Contains, length, map, slice_get, Some};
ghost use Rattle.std.specs.List.{IsDistinct};
ghost use Rattle.std.specs.Str.{bytes_eq};
ghost use Rattle.mg_sources.specs.Files.{Source, HaveKinds, sources};
ghost use Rattle.mg_refusal.specs.Refusals.{Refusal};
ghost use Rattle.mg_refusal.specs.Order.{Answers, AnswersOnly};
ghost use Rattle.mg_accepted.specs.Accepted.{AreAccepted};
ghost use Rattle.mg_compile.specs.Files.{AreClassFiles};
ghost use Rattle.mg_compile.specs.View.{IsOfFiles};
ghost use Rattle.mg_runs.specs.Commanded.{no_main, FirstRefusal};
ghost use Rattle.mg_runs.specs.Headline.{Course, IsCourse};
ghost use Rattle.mg_runs.specs.Going.{IsOrder};
ghost use Rattle.mg_runs.specs.Runs.{HaveMains};
ghost use Rattle.mg_runs.specs.View.{IsOfRun, Shows};
ghost use Rattle.mg_runs.specs.inner.Going.{IsRunOf, told};

use crate::going::{Gone, go};
use crate::laws::{loaded_classes_are_typable, runs_are_meant};
use crate::loading::load_back;
use crate::mains::first_without;
use crate::ran::Ran;
use crate::sent::messages_in;
use jv_core::Core;
use mg_accepted::accept;
use mg_compile::{ClassFile, class_files};
use mg_refusal::{Refusal, Stop};
use mg_text::{Bytes, List, Memory, Text};
use mg_trace::trace;
use std::alloc::Global;
use vm_events::Events;
use vm_world::RoleMain;

/// Runs these roles, each from `static void main(String[])` of its class, of the program that these
/// files are. They take turns in this order of their numbers, repeated as a cycle, until each has
/// ended or waits, or `limit` instructions were counted. The class files of the program are written
/// to bytes, read back, linked and run. Where `named`, each printed text stands behind the name of
/// its role; where `traced`, the lines of the other events are told.
///
/// # Errors
/// `Refused` with the first refusal of the program; else with the first role whose class has no
/// `main`; else with the first size that is too large in a class file. `Memory` where memory is
/// wanted.
pub fn run_roles(
    alloc: Global,
    names: &[Text],
    contents: &[Bytes],
    mains: &[RoleMain],
    order: &[u32],
    limit: u32,
    named: bool,
    traced: bool,
) -> Result<Ran, Stop>
    requires same { length names.now ≡ length contents.now }
    requires count { length contents.now < 2 ^ 32 }
    requires kinds { HaveKinds names.now }
    requires roles { IsDistinct bytes_eq (map (λ m. m.role) mains.now) }
    requires numbers { (i : ℕ) (r : ℕ) → slice_get order.now i ≡ Some r → r < length mains.now }
    requires order { (r : ℕ) → r < length mains.now → Contains order.now r }
    // What is answered is a run of the roles, or the first refusal.
    ensures answered { Answers (IsOfRun (sources names.now contents.now) mains.now order.now limit named traced)
        (FirstRefusal (sources names.now contents.now) mains.now) result }
    // Each run of these files is the one that is answered, unless memory runs out.
    ensures only { (run : Course) → IsCourse (sources names.now contents.now) mains.now order.now limit run →
        AnswersOnly (Shows mains.now named traced run) result }
    // Files that are refused aren't run.
    ensures refused { (r : Refusal) → FirstRefusal (sources names.now contents.now) mains.now r → OnOk result ⊥ }
{
    ran_roles(alloc, names, contents, mains, order, limit, named, traced)
}

// The same, without what follows from its being one answer.
fn ran_roles(
    alloc: Global,
    names: &[Text],
    contents: &[Bytes],
    mains: &[RoleMain],
    order: &[u32],
    limit: u32,
    named: bool,
    traced: bool,
) -> Result<Ran, Stop>
    requires same { length names.now ≡ length contents.now }
    requires count { length contents.now < 2 ^ 32 }
    requires kinds { HaveKinds names.now }
    requires roles { IsDistinct bytes_eq (map (λ m. m.role) mains.now) }
    requires order { IsOrder order.now mains.now }
    ensures { Answers (IsOfRun (sources names.now contents.now) mains.now order.now limit named traced)
        (FirstRefusal (sources names.now contents.now) mains.now) result }
{
    let program = accept(alloc, names, contents)?;
    let ran = ran_by(alloc, &program.core, mains, order, limit, named, traced);
    drop(program);
    ran
}

// The run of these roles, of the core of accepted files.
fn ran_by(
    alloc: Global,
    core: &Core,
    mains: &[RoleMain],
    order: &[u32],
    limit: u32,
    named: bool,
    traced: bool,
) -> Result<Ran, Stop>
    requires files { IsOfFiles core.now }
    requires roles { IsDistinct bytes_eq (map (λ m. m.role) mains.now) }
    requires order { IsOrder order.now mains.now }
    ensures { (files : Seq Source) → AreAccepted files core.now →
        Answers (IsOfRun files mains.now order.now limit named traced) (FirstRefusal files mains.now) result }
{
    if let Some(number) = first_without(core, mains) {
        let refusal = no_main(&mains[number].class)?;
        return Err(Stop::Refused(refusal));
    }
    let files = class_files(alloc, core)?;
    Ok(run_files(alloc, core, files, mains, order, limit, named, traced)?)
}

// The run of these roles, of the class files of a program.
fn run_files(
    alloc: Global,
    core: &Core,
    files: List<ClassFile>,
    mains: &[RoleMain],
    order: &[u32],
    limit: u32,
    named: bool,
    traced: bool,
) -> Result<Ran, Memory>
    requires files { IsOfFiles core.now }
    requires made { AreClassFiles core.now files.items }
    requires mains { HaveMains core.now mains.now }
    requires roles { IsDistinct bytes_eq (map (λ m. m.role) mains.now) }
    requires order { IsOrder order.now mains.now }
    ensures { IfOk result (IsRunOf core.now files.items mains.now order.now limit named traced) }
{
    runs_are_meant();
    loaded_classes_are_typable();
    let linked = load_back(alloc, core, files.as_slice())?;
    let gone = go(alloc, linked, mains, order, limit, named, true)?;
    let events = gone.world.events();
    let messages = messages_in(events);
    match told(alloc, core, gone.names.as_slice(), events, traced) {
        Ok(trace) => Ok(ran_of(files, gone, trace, messages)),
        Err(Memory) => {
            drop(gone);
            Err(Memory)
        }
    }
}

// What is shown of roles that took their turns. Their world and their names are let go.
fn ran_of(files: List<ClassFile>, gone: Gone, trace: Text, messages: usize) -> Ran
    ensures { result ≡ record { files = files; roles = gone.roles; printed = gone.printed; trace = trace; messages = messages } }
{
    let Gone {
        world,
        names,
        roles,
        printed,
    } = gone;
    drop(world);
    drop(names);
    Ran {
        files,
        roles,
        printed,
        trace,
        messages,
    }
}

// The trace of these events, where it is asked for.
fn told(
    alloc: Global,
    core: &Core,
    names: &[Text],
    events: &Events,
    traced: bool,
) -> Result<Text, Memory>
    ensures { IfOk result (λ t. t ≡ told core.now names.now events.now.items traced) }
{
    if traced {
        trace(alloc, core, names, events)
    } else {
        Ok(Text::from_string(String::new(alloc)))
    }
}

/// The refusal of a class without a `main`.
///
/// # Errors
/// `Memory` only.
pub fn no_main(class: &Text) -> Result<Refusal, Memory>
    ensures { IfOk result (λ r. r ≡ no_main class.now) }
{
    Ok(Refusal::nowhere("NoMain", class.copy()?))
}
