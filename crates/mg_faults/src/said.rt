//! What is said of demands, in order, each line once.
//! Lines are looked up by hashing, so that the work grows with the demands but for their sorting.

ghost use Rattle.std.specs.Prelude.{◌≡◌, List as Seq, IfOk, OnOk, string_bytes};
ghost use Rattle.std.specs.List.Sorted.{IsPermutation, IsSortedBy, IsStableBy};
ghost use Rattle.jv_core.specs.Tree.{Program};
ghost use Rattle.use_rules.specs.declared.demand.Demand.{Demand as DemandOf};
ghost use Rattle.mg_refusal.specs.Refusals.{name_or_none};
ghost use Rattle.mg_accepted.specs.Demands.{demand_refusal};
ghost use Rattle.mg_faults.specs.Demands.{element_number, said_of, once, stands_before, with_line};
ghost use Rattle.mg_faults.specs.inner.Keys.{IsKey, AreSaid, IsTold};

use indexmap::IndexSet;
use jv_core::Core;
use mg_accepted::refusal_of;
use mg_refusal::Refusal;
use mg_text::{List, Memory};
use std::alloc::Global;
use use_flow::{Demand, Element};

/// A line, as a key: its kind in a word, its place, and what is named.
#[derive(Drop, PartialEq, Eq, Hash)]
pub(crate) struct LineKey {
    kind: &'static str,
    file: u32,
    line: u32,
    column: u32,
    name: String,
}

// Where an element stands among those of a variable.
fn element_number(element: Element) -> u64
    ensures { result ≡ element_number element }
{
    match element {
        Element::Null => 0,
        Element::Moved => 1,
        Element::End => 2,
        Element::State(state) => 3 + u64::from(state),
    }
}

// The demands in their order.
fn sorted(failed: List<Demand>) -> Result<Vec<Demand>, Memory>
    ensures moves { IfOk result (λ v. IsPermutation failed.items v.items) }
    ensures sorted { IfOk result (λ v. IsSortedBy stands_before v.items) }
    ensures stable { IfOk result (λ v. IsStableBy stands_before failed.items v.items) }
{
    let mut demands = failed.into_vec();
    demands.sort_by_key(|demand| {
        (
            demand.place.file,
            demand.place.line,
            demand.place.column,
            demand.variable,
            element_number(demand.element),
        )
    })?;
    Ok(demands)
}

// What a refusal names, empty where nothing is named.
fn name_in(alloc: Global, refusal: &Refusal) -> Result<String, Memory>
    ensures { IfOk result (λ s. string_bytes s ≡ name_or_none refusal.now.name) }
{
    match refusal.name() {
        Some(name) => Ok(String::from_str(alloc, name.as_str())?),
        None => Ok(String::new(alloc)),
    }
}

// The line that is said of a demand, as a key.
fn key_of(alloc: Global, demand: &Demand, refusal: &Refusal) -> Result<LineKey, Memory>
    ensures { IfOk result (λ k. (core : Program) → refusal.now ≡ demand_refusal core demand.now → IsKey core demand.now k) }
{
    let name = name_in(alloc, refusal)?;
    Ok(LineKey {
        kind: refusal.kind(),
        file: demand.place.file,
        line: demand.place.line,
        column: demand.place.column,
        name,
    })
}

// Says one more, where its line isn't said.
fn say(
    alloc: Global,
    core: &Core,
    lines: &mut IndexSet<LineKey>,
    said: &mut Vec<Refusal>,
    demand: &Demand,
) -> Result<(), Memory>
    ensures { OnOk result ((seen : Seq DemandOf) → AreSaid core.now seen lines.old.keys said.old.items →
        AreSaid core.now (with_line core.now seen demand.now) lines.new.keys said.new.items) }
{
    let refusal = refusal_of(alloc, core, demand)?;
    let key = key_of(alloc, demand, &refusal)?;
    if !lines.insert(key)? {
        return Ok(());
    }
    said.push(refusal)?;
    Ok(())
}

// What is said of demands, each line once.
fn say_all(alloc: Global, core: &Core, demands: &[Demand]) -> Result<Vec<Refusal>, Memory>
    ensures { IfOk result (λ v. v.items ≡ said_of core.now (once core.now demands.now)) }
{
    let mut lines = IndexSet::new(alloc);
    let mut said = Vec::new(alloc);
    for demand in demands {
        say(alloc, core, &mut lines, &mut said, demand)?;
    }
    Ok(said)
}

/// What is said of demands that fail, in order, each line once.
pub(crate) fn told(alloc: Global, core: &Core, failed: List<Demand>) -> Result<Vec<Refusal>, Memory>
    ensures { IfOk result (λ v. IsTold core.now failed.items v.items) }
{
    let demands = sorted(failed)?;
    say_all(alloc, core, demands.as_slice())
}
