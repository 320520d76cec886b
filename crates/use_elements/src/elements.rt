//! Where the elements of a set lead, and which demands they fail.
//! Each is a loop over the members of a set.

ghost use Rattle.std.specs.Prelude.{◌≡◌, ◌++◌, slice_set, true, option_map, if◌then◌else◌, nat_lt, IfOk, IfSome, OnOk};
ghost use Rattle.std.specs.Bool.{OnTrue};
ghost use Rattle.std.specs.List.{list_any};
ghost use Rattle.mg_sets.specs.Sets.{has, members};
ghost use Rattle.ts_tree.specs.Calls.{drops};
ghost use Rattle.use_rules.specs.Elements.{element_at, if_moved, if_open, image, left_behind, marked, none};
ghost use Rattle.use_rules.specs.State.{judged};
ghost use Rattle.use_elements.specs.Mappings.{typestate_or_end, mapping_of, rule_of, listed, blamed, title_in, LeadsToItself};

use mg_sets::StateSet;
use mg_text::{List, Memory, Name, Names, Place, Text};
use std::alloc::Global;
use ts_tree::Typestate;
use use_rules::{Demand, DemandKind, Element};

/// Where reads and null tests lead from an element.
#[derive(Clone, Copy, PartialEq, Eq)]
pub enum Mapping {
    /// What a read gives.
    AsValue,
    /// What a read leaves in the variable.
    LeftBehind,
    NotNull,
    OnlyNull,
}

/// What is asked of an element, wherever it stands.
#[derive(Clone, Copy, PartialEq, Eq)]
pub enum Rule {
    Moved,
    LeftOpen,
    Overwritten,
    FieldOpenAtEnd,
}

/// The set of this width without members.
///
/// # Errors
/// `Memory` only.
pub fn empty_set(alloc: Global, width: usize) -> Result<StateSet, Memory>
    ensures { IfOk result (λ s. s ≡ none width) }
{
    let Ok(set) = StateSet::new(alloc, width) else {
        return Err(Memory);
    };
    Ok(set)
}

/// An equal set.
///
/// # Errors
/// `Memory` only.
pub fn copy_set(set: &StateSet) -> Result<StateSet, Memory>
    ensures { IfOk result (λ s. s ≡ set.now) }
{
    let Ok(copy) = set.copy() else {
        return Err(Memory);
    };
    Ok(copy)
}

/// Makes an element a member, where it is below the width.
pub fn mark(set: &mut StateSet, element: usize)
    ensures { set.new ≡ slice_set set.old element true }
{
    if element < set.width() {
        let _new = set.add(element);
    }
}

// Where an element leads, if anywhere.
#[tactic(auto, using(crate::proofs::Leading::leading))]
fn lead(mapping: Mapping, element: usize) -> Option<usize>
    ensures { listed result ≡ mapping_of mapping element }
{
    match mapping {
        Mapping::AsValue => { if element == 1 { None } else { Some(element) } }
        Mapping::LeftBehind => match element {
            0 => Some(0),
            1 => None,
            _ => Some(1),
        },
        Mapping::NotNull => { if element == 0 { None } else { Some(element) } }
        Mapping::OnlyNull => { if element == 0 { Some(0) } else { None } }
    }
}

// Makes the element that there may be a member.
fn mark_found(set: &mut StateSet, element: Option<usize>)
    ensures { set.new ≡ marked (listed element) set.old }
{
    if let Some(element) = element {
        mark(set, element);
    }
}

// The element beside which each leads to itself, if there is one.
fn left_out(mapping: Mapping) -> Option<usize>
    ensures { IfSome result (λ k. LeadsToItself (mapping_of mapping) k) }
{
    match mapping {
        Mapping::AsValue => Some(1),
        Mapping::NotNull => Some(0),
        Mapping::LeftBehind | Mapping::OnlyNull => None,
    }
}

// True only where all elements of a set of this width lead to themselves.
#[tactic(auto, using(crate::proofs::Kept::kept))]
fn is_kept(width: usize, mapping: Mapping, set: &StateSet) -> bool
    ensures { OnTrue result (image width (mapping_of mapping) set.now ≡ set.now) }
{
    if set.width() != width {
        return false;
    }
    let Some(element) = left_out(mapping) else {
        return false;
    };
    if element >= width {
        return false;
    }
    !set.has(element)
}

// Whether a set has null.
#[tactic(auto, using(crate::proofs::Kept::left))]
fn has_null(set: &StateSet) -> bool
    ensures { result ≡ has set.now 0 }
{
    if set.width() == 0 {
        return false;
    }
    set.has(0)
}

// Whether a set has an object: the places of its states and of the end are above 1.
#[tactic(auto, using(crate::proofs::Kept::objects))]
fn has_object(set: &StateSet) -> bool
    ensures { result ≡ list_any (nat_lt 1) (members set.now) }
{
    for element in set.iter() {
        if element > 1 {
            return true;
        }
    }
    false
}

// Makes an element a member, where a condition holds.
fn mark_if(set: &mut StateSet, holds: bool, element: usize)
    ensures { set.new ≡ (if holds then slice_set set.old element true else set.old) }
{
    if holds {
        mark(set, element);
    }
}

// What a read leaves of a set in the variable: null, and moved for each object.
#[tactic(auto, using(crate::proofs::Kept::left))]
fn left_behind(alloc: Global, width: usize, set: &StateSet) -> Result<StateSet, Memory>
    ensures { IfOk result (λ s. s ≡ image width left_behind set.now) }
{
    let mut found = empty_set(alloc, width)?;
    mark_if(&mut found, has_null(set), 0);
    mark_if(&mut found, has_object(set), 1);
    Ok(found)
}

/// Where the elements of a set lead, as a set of this width.
///
/// # Errors
/// `Memory` only.
#[tactic(auto, using(crate::proofs::Rests::rests))]
pub fn image(
    alloc: Global,
    width: usize,
    mapping: Mapping,
    set: &StateSet,
) -> Result<StateSet, Memory>
    ensures { IfOk result (λ s. s ≡ image width (mapping_of mapping) set.now) }
{
    if mapping == Mapping::LeftBehind {
        return left_behind(alloc, width, set);
    }
    if is_kept(width, mapping, set) {
        return copy_set(set);
    }
    let mut found = empty_set(alloc, width)?;
    for element in set.iter() {
        mark_found(&mut found, lead(mapping, element));
    }
    Ok(found)
}

/// Whether a state of a typestate is marked drop. False where there is no typestate, or no such state.
#[tactic(auto, using(crate::proofs::Found::found))]
pub fn drops_at(typestate: Option<&Typestate>, state: usize) -> bool
    ensures { result ≡ drops (typestate_or_end (option_map (λ t. t.now) typestate.entry)) state }
{
    let Some(typestate) = typestate else {
        return false;
    };
    match typestate.states.as_slice().get(state) {
        Some(state) => state.drops,
        None => false,
    }
}

// Which demand an element of a class with this typestate fails.
#[tactic(auto, using(crate::proofs::Leading::leading))]
fn asked(rule: Rule, typestate: Option<&Typestate>, element: usize) -> Option<DemandKind>
    ensures { result ≡ rule_of rule (typestate_or_end (option_map (λ t. t.now) typestate.entry)) element }
{
    match rule {
        Rule::Moved => {
            if element == 1 {
                Some(DemandKind::UseMoved)
            } else {
                None
            }
        }
        Rule::LeftOpen => open_asked(DemandKind::LeftOpen, typestate, element),
        Rule::Overwritten => open_asked(DemandKind::Overwritten, typestate, element),
        Rule::FieldOpenAtEnd => open_asked(DemandKind::FieldOpenAtEnd, typestate, element),
    }
}

// The demand that no state meets but one that is marked drop.
#[tactic(auto, using(crate::proofs::Leading::leading))]
fn open_asked(kind: DemandKind, typestate: Option<&Typestate>, element: usize) -> Option<DemandKind>
    ensures { result ≡ if_open kind (typestate_or_end (option_map (λ t. t.now) typestate.entry)) element }
{
    if element < 3 {
        return None;
    }
    if drops_at(typestate, element - 3) {
        None
    } else {
        Some(kind)
    }
}

// The element at a place of a set.
#[tactic(auto, using(crate::proofs::Leading::leading))]
fn element_at(place: usize) -> Result<Element, Memory>
    ensures { IfOk result (λ e. e ≡ element_at place) }
{
    if place == 0 {
        return Ok(Element::Null);
    }
    if place == 1 {
        return Ok(Element::Moved);
    }
    if place == 2 {
        return Ok(Element::End);
    }
    let Ok(state) = u32::try_from(place - 3) else {
        return Err(Memory);
    };
    Ok(Element::State(state))
}

/// What a demand is about: a variable of this name, or a value that is dropped.
#[derive(Clone, Copy)]
pub enum Title {
    Variable(Name),
    Value,
    Unnamed,
}

/// What a demand is about, where that stands, its number among the variables of the method, and the class of its
/// objects.
#[derive(Clone, Copy)]
pub struct Subject {
    pub place: Place,
    pub variable: usize,
    pub title: Title,
    pub class: u32,
}

// What a demand is about, as a text.
#[tactic(auto, using(crate::proofs::Found::found))]
fn title_text(alloc: Global, names: &Names, title: Title) -> Result<Text, Memory>
    ensures { IfOk result (λ t. t ≡ title_in names.now title) }
{
    match title {
        Title::Variable(name) => {
            if (name.0 as usize) < names.len() {
                return Text::of(alloc, names.text(name));
            }
            Text::of(alloc, "")
        }
        Title::Value => Text::of(alloc, "value"),
        Title::Unnamed => Text::of(alloc, ""),
    }
}

/// Appends the demand that an element fails, where it fails one. The place is that of the element in a
/// set.
///
/// # Errors
/// `Memory` only, also where the number of a state fits no `u32`.
pub fn blame(
    alloc: Global,
    names: &Names,
    failed: &mut List<Demand>,
    subject: Subject,
    place: usize,
    kind: Option<DemandKind>,
) -> Result<(), Memory>
    ensures { OnOk result (failed.new.items ≡ failed.old.items ++ blamed subject.place subject.variable
        (title_in names.now subject.title) subject.class place kind) }
{
    if let Some(kind) = kind {
        let element = element_at(place)?;
        let slot = title_text(alloc, names, subject.title)?;
        failed.push(Demand {
            kind,
            place: subject.place,
            variable: subject.variable,
            slot,
            class: subject.class,
            element,
        })?;
    }
    Ok(())
}

// Appends the demand that a set fails which has a moved object.
#[tactic(auto, using(crate::proofs::Kept::moved))]
fn judge_moved(
    alloc: Global,
    names: &Names,
    failed: &mut List<Demand>,
    subject: Subject,
    set: &StateSet,
) -> Result<(), Memory>
    ensures { OnOk result (failed.new.items ≡ failed.old.items
        ++ judged if_moved subject.place subject.variable (title_in names.now subject.title) subject.class set.now) }
{
    if set.width() < 2 {
        return Ok(());
    }
    if set.has(1) {
        blame(alloc, names, failed, subject, 1, Some(DemandKind::UseMoved))?;
    }
    Ok(())
}

/// Appends the demands that a set fails, element by element. The typestate is that of the class.
///
/// # Errors
/// `Memory` only, also where the number of a state fits no `u32`.
#[tactic(auto, using(crate::proofs::Rests::rests))]
pub fn judge(
    alloc: Global,
    names: &Names,
    failed: &mut List<Demand>,
    subject: Subject,
    rule: Rule,
    typestate: Option<&Typestate>,
    set: &StateSet,
) -> Result<(), Memory>
    ensures { OnOk result (failed.new.items ≡ failed.old.items
        ++ judged (rule_of rule (typestate_or_end (option_map (λ t. t.now) typestate.entry)))
        subject.place subject.variable (title_in names.now subject.title) subject.class set.now) }
{
    if rule == Rule::Moved {
        return judge_moved(alloc, names, failed, subject, set);
    }
    for element in set.iter() {
        let kind = asked(rule, typestate, element);
        blame(alloc, names, failed, subject, element, kind)?;
    }
    Ok(())
}
