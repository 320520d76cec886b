//! From class files to the run of their roles.

ghost use Rattle.std.specs.Prelude.{◌≡◌, ◌<◌, ◌^◌, ℕ, List as Seq, IfOk, OnOk, Contains, length, map, slice_get, Some};
ghost use Rattle.std.specs.List.{IsDistinct};
ghost use Rattle.std.specs.Str.{bytes_eq};
ghost use Rattle.mg_sources.specs.Files.{sources};
ghost use Rattle.mg_runs.specs.Going.{IsOrder};
ghost use Rattle.mg_refusal.specs.Refusals.{Refusal};
ghost use Rattle.mg_refusal.specs.Order.{Answers, AnswersOnly};
ghost use Rattle.mg_exec.specs.Runs.{Course, IsProgram, HaveMains, IsRun, NoProgram, FirstRefusal};
ghost use Rattle.mg_exec.specs.View.{IsOfRun, Shows};
ghost use Rattle.mg_exec.specs.inner.Going.{IsRunOf, told};

use crate::mains::first_without;
use crate::ran::Ran;
use crate::reading::{link, read_all};
use crate::typed::is_typed;
use mg_refusal::Stop;
use mg_runs::{Gone, go, no_main};
use mg_text::{Bytes, Memory, Text};
use mg_trace::plain_trace;
use std::alloc::Global;
use vm_events::Events;
use vm_model::Linked;
use vm_world::RoleMain;

/// Runs these roles, each from `static void main(String[])` of its class, of the program that these
/// class files link to. They take turns in this order of their numbers, repeated as a cycle, until
/// each has ended or waits, or `limit` instructions were counted. Where `named`, each printed text
/// stands behind the name of its role; where `traced`, the lines of the other events are told, with
/// what a method answered as a number.
///
/// # Errors
/// `Refused` with the first file that is over 16,777,216 bytes or that isn't a class file; else with
/// the first flaw of the lowest number, where the files don't link; else with the first role whose
/// class isn't there or has no `main`. `Memory` where memory is wanted.
pub fn exec_roles(
    alloc: Global,
    contents: &[Bytes],
    mains: &[RoleMain],
    order: &[u32],
    limit: u32,
    named: bool,
    traced: bool,
) -> Result<Ran, Stop>
    requires count { length contents.now < 2 ^ 32 }
    requires roles { IsDistinct bytes_eq (map (λ m. m.role) mains.now) }
    requires numbers { (i : ℕ) (r : ℕ) → slice_get order.now i ≡ Some r → r < length mains.now }
    requires order { (r : ℕ) → r < length mains.now → Contains order.now r }
    // Whatever the files are called, what is answered is a run of the roles, or the first refusal.
    ensures answered { (names : Seq (Seq ℕ)) → length names ≡ length contents.now →
        Answers (IsOfRun (sources names contents.now) mains.now order.now limit named traced)
        (FirstRefusal (sources names contents.now) mains.now) result }
    // Each run of these files is the one that is answered, unless memory runs out.
    ensures only { (names : Seq (Seq ℕ)) → length names ≡ length contents.now → (run : Course) →
        IsRun (sources names contents.now) mains.now order.now limit run → AnswersOnly (Shows mains.now named traced run) result }
    // Files that are refused aren't run.
    ensures refused { (names : Seq (Seq ℕ)) → length names ≡ length contents.now → (r : Refusal) →
        FirstRefusal (sources names contents.now) mains.now r → OnOk result ⊥ }
{
    ran_roles(alloc, contents, mains, order, limit, named, traced)
}

// The same, without what follows from its being one answer.
fn ran_roles(
    alloc: Global,
    contents: &[Bytes],
    mains: &[RoleMain],
    order: &[u32],
    limit: u32,
    named: bool,
    traced: bool,
) -> Result<Ran, Stop>
    requires count { length contents.now < 2 ^ 32 }
    requires roles { IsDistinct bytes_eq (map (λ m. m.role) mains.now) }
    requires order { IsOrder order.now mains.now }
    ensures { (names : Seq (Seq ℕ)) → length names ≡ length contents.now →
        Answers (IsOfRun (sources names contents.now) mains.now order.now limit named traced)
        (FirstRefusal (sources names contents.now) mains.now) result }
{
    let linked = program(alloc, contents)?;
    if let Some(number) = first_without(&linked, mains) {
        let refusal = no_main(&mains[number].class)?;
        return Err(Stop::Refused(refusal));
    }
    Ok(run(alloc, linked, mains, order, limit, named, traced)?)
}

/// The program that these class files link to.
///
/// # Errors
/// `Refused` with the first file that is over 16,777,216 bytes or that isn't a class file; else with
/// the first flaw of the lowest number, where the files don't link. `Memory` where memory is wanted.
pub fn program(alloc: Global, contents: &[Bytes]) -> Result<Linked, Stop>
    requires { length contents.now < 2 ^ 32 }
    ensures { (names : Seq (Seq ℕ)) → length names ≡ length contents.now →
        Answers (IsProgram (sources names contents.now)) (NoProgram (sources names contents.now)) result }
{
    let classes = read_all(alloc, contents)?;
    link(alloc, classes.as_slice())
}

// The run of these roles of a program.
fn run(
    alloc: Global,
    linked: Linked,
    mains: &[RoleMain],
    order: &[u32],
    limit: u32,
    named: bool,
    traced: bool,
) -> Result<Ran, Memory>
    requires mains { HaveMains linked mains.now }
    requires roles { IsDistinct bytes_eq (map (λ m. m.role) mains.now) }
    requires order { IsOrder order.now mains.now }
    ensures { IfOk result (IsRunOf linked mains.now order.now limit named traced) }
{
    let typed = is_typed(alloc, &linked, limit);
    let gone = go(alloc, linked, mains, order, limit, named, typed)?;
    let events = gone.world.events();
    let trace = told(alloc, gone.names.as_slice(), events, traced)?;
    let Gone {
        world: _world,
        names: _names,
        roles,
        printed,
    } = gone;
    Ok(Ran {
        roles,
        printed,
        trace,
    })
}

// The trace of these events, where it is asked for.
fn told(alloc: Global, names: &[Text], events: &Events, traced: bool) -> Result<Text, Memory>
    ensures { IfOk result (λ t. t ≡ told names.now events.now.items traced) }
{
    if traced {
        plain_trace(alloc, names, events)
    } else {
        Ok(Text::from_string(String::new(alloc)))
    }
}
