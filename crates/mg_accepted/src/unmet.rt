//! Demands that fail, as refusals.

ghost use Rattle.std.specs.Prelude.{◌≡◌, IfOk, option_map, string_bytes};
ghost use Rattle.use_elements.specs.Mappings.{typestate_or_end};
ghost use Rattle.use_check.specs.Report.{state_text, element_text};
ghost use Rattle.mg_refusal.specs.Order.{IsStopBy};
ghost use Rattle.mg_accepted.specs.Demands.{demand_word, tells_element, element_of, demand_name, demand_refusal};
ghost use Rattle.mg_accepted.specs.inner.Answers.{demand_of};

use jv_core::Core;
use mg_refusal::{Refusal, Stop};
use mg_text::{Memory, Text};
use std::alloc::Global;
use ts_tree::Typestate;
use use_check::CheckFault;
use use_flow::{Demand, DemandKind, Element, typestate_of};

/// The refusal by the demand of a fault, or want of memory.
pub(crate) fn stop_of(alloc: Global, core: &Core, fault: &CheckFault) -> Stop
    ensures { IsStopBy (λ d r. r ≡ demand_refusal core.now d) (demand_of fault.now) result }
{
    let Some(demand) = demand_of(fault) else {
        return Stop::Memory;
    };
    match refusal_of(alloc, core, demand) {
        Ok(refusal) => Stop::Refused(refusal),
        Err(Memory) => Stop::Memory,
    }
}

/// A demand that fails, as a refusal.
///
/// # Errors
/// `Memory` only.
pub fn refusal_of(alloc: Global, core: &Core, demand: &Demand) -> Result<Refusal, Memory>
    ensures { IfOk result (λ r. r ≡ demand_refusal core.now demand.now) }
{
    let name = Text::from_string(name_of(alloc, core, demand)?);
    Ok(Refusal::named(word_of(demand.kind), demand.place, name))
}

// The demand that a fault tells of. Want of memory tells of none.
fn demand_of(fault: &CheckFault) -> Option<&Demand>
    ensures { option_map (λ d. d.now) result ≡ demand_of fault.now }
{
    match fault {
        CheckFault::UseMoved(demand) => Some(demand),
        CheckFault::MaybeNull(demand) => Some(demand),
        CheckFault::NotOffered(demand) => Some(demand),
        CheckFault::LeftOpen(demand) => Some(demand),
        CheckFault::Overwritten(demand) => Some(demand),
        CheckFault::FieldOpenAtEnd(demand) => Some(demand),
        CheckFault::Memory => None,
    }
}

// The word for each kind of demand.
fn word_of(kind: DemandKind) -> &'static str
    ensures { result.now ≡ demand_word kind }
{
    match kind {
        DemandKind::UseMoved => "UseMoved",
        DemandKind::MaybeNull => "MaybeNull",
        DemandKind::NotOffered => "NotOffered",
        DemandKind::LeftOpen => "LeftOpen",
        DemandKind::Overwritten => "Overwritten",
        DemandKind::FieldOpenAtEnd => "FieldOpenAtEnd",
    }
}

// Whether a demand tells which state fails it.
fn tells_element(kind: DemandKind) -> bool
    ensures { result ≡ tells_element kind }
{
    match kind {
        DemandKind::UseMoved => false,
        DemandKind::MaybeNull => false,
        DemandKind::NotOffered => true,
        DemandKind::LeftOpen => true,
        DemandKind::Overwritten => true,
        DemandKind::FieldOpenAtEnd => true,
    }
}

// What is named of a demand: the variable, and behind a blank the element, where it is told.
fn name_of(alloc: Global, core: &Core, demand: &Demand) -> Result<String, Memory>
    ensures { IfOk result (λ s. string_bytes s ≡ demand_name core.now demand.now) }
{
    let mut name = String::from_str(alloc, demand.slot.as_str())?;
    if !tells_element(demand.kind) {
        return Ok(name);
    }
    name.push_str(" ")?;
    name.push_str(element_of(core, demand))?;
    Ok(name)
}

// The element that fails a demand, by its name.
fn element_of<'a>(core: &'a Core, demand: &Demand) -> &'a str
    ensures { result.now ≡ element_of core.now demand.now }
{
    element_text(typestate_of(core, demand.class), demand.element)
}

// An element by its name.
fn element_text(typestate: Option<&Typestate>, element: Element) -> &str
    ensures { result.now ≡ element_text (typestate_or_end (option_map (λ t. t.now) typestate.entry)) element }
{
    match element {
        Element::Null => "null",
        Element::Moved => "moved",
        Element::End => "end",
        Element::State(state) => state_text(typestate, state as usize),
    }
}

// The name of a state.
#[tactic(auto, using(use_flow::proofs::Scenes::scenes))]
fn state_text(typestate: Option<&Typestate>, state: usize) -> &str
    ensures { result.now ≡ state_text (typestate_or_end (option_map (λ t. t.now) typestate.entry)) state }
{
    let Some(typestate) = typestate else {
        return "";
    };
    match typestate.states.as_slice().get(state) {
        Some(state) => state.name.as_str(),
        None => "",
    }
}
