//! What instructions need of the machine, and what is wrong where it isn't there.
//! The tests stand in one order for all instructions.

ghost use Rattle.std.specs.Prelude.{◌≡◌, ◌+◌, ◌<◌, ◌≤◌, ◌||◌, List, false, codes, length, option_map};
ghost use Rattle.std.specs.Str.{bytes_eq};
ghost use Rattle.vm_model.specs.Descriptors.{type_view};
ghost use Rattle.vm_model.specs.Tests as model;
ghost use Rattle.mg_text.specs.Call.{Name};
ghost use Rattle.vm_frames.specs.Seen.{value_in};
ghost use Rattle.vm_frames.specs.Kept.{most};
ghost use Rattle.vm_session.specs.State.{state_of, operands_of};
ghost use Rattle.vm_actions.specs.Table.{sort_of};
ghost use Rattle.vm_step.specs.inner.Judged.{judged};
ghost use Rattle.vm_step.specs.Needing.{want_of, wants_of, needs_of};

use crate::program::{class_name, max_stack, method_at};
use mg_text::BadKind;
use vm_actions::Sort;
use vm_frames::{Cell, State};
use vm_model::{FieldType, Linked};

/// What an operand must be.
#[derive(Clone, Copy)]
pub(crate) enum Want<'a> {
    Any,
    Sorted(Sort),
    Typed(FieldType<'a>),
    /// A returned value is of the opcode's sort and meets the type of the result.
    Returned(Sort, Option<FieldType<'a>>),
}

/// What an instruction needs.
#[derive(Clone, Copy)]
pub(crate) struct Needs<'a> {
    /// The operands that it takes, the topmost last.
    pub(crate) takes: &'a [Want<'a>],
    /// A local that it reads, and of what sort that must be.
    pub(crate) reads: Option<(u8, Sort)>,
    /// How many locals there must be, and how many there are.
    pub(crate) locals: usize,
    pub(crate) of_locals: usize,
    /// Whether a return is of the kind that the descriptor says.
    pub(crate) returns: bool,
    /// How many operands stand behind it where it pushes, and how many may.
    pub(crate) operands: usize,
    pub(crate) max_stack: usize,
}

/// What is wrong with operands: whether one is of a wrong kind, and one of a wrong class.
#[derive(Clone, Copy)]
struct Found {
    kind: bool,
    member: bool,
}

/// An int.
pub(crate) const NUMBER: Want<'static> = Want::Sorted(Sort::Number);

/// A text or null.
pub(crate) const TEXT: Want<'static> = Want::Typed(FieldType::Named("java/lang/String"));

/// The class of an object, of a text and of the print stream.
fn class_of_value<'a>(linked: &'a Linked, state: &State, cell: Cell) -> &'a str
    ensures { result.now ≡ model.class_of_value linked.now (state_of state.now).heap (value_in state.now.texts cell) }
{
    match cell {
        Cell::Object(number) => match state.class_of_object(number) {
            Some(class) => class_name(linked, class),
            None => "",
        },
        Cell::Text(_) => "java/lang/String",
        Cell::Out => "java/io/PrintStream",
        Cell::Int(_) | Cell::Null | Cell::Unset => "",
    }
}

/// Whether an object of a class is one of the class of this name.
fn is_of(class: &str, name: &str) -> bool
    ensures { result ≡ (bytes_eq name.now (codes "java/lang/Object") || bytes_eq name.now class.now) }
{
    name == "java/lang/Object" || name == class
}

#[inline(always)]
fn kind_unless(right: bool) -> Option<BadKind>
    ensures { result ≡ model.kind_unless right }
{
    if right { None } else { Some(BadKind::Kind) }
}

#[inline(always)]
fn is_reference(cell: Cell) -> bool
    ensures { (texts : List Name) → result ≡ model.is_reference (value_in texts cell) }
{
    !matches!(cell, Cell::Int(_))
}

#[inline(always)]
pub(crate) fn is_null(cell: Cell) -> bool
    ensures { (texts : List Name) → result ≡ model.is_null (value_in texts cell) }
{
    matches!(cell, Cell::Null | Cell::Unset)
}

/// Why a value isn't one of a class: objects and the print stream are of another class, but in place
/// of a text, and everything else is of another kind.
fn misfit_class(linked: &Linked, state: &State, name: &str, cell: Cell) -> Option<BadKind>
    ensures { result ≡ model.misfit_class linked.now (state_of state.now).heap name.now
        (value_in state.now.texts cell) }
{
    match cell {
        Cell::Null | Cell::Unset => None,
        Cell::Int(_) => Some(BadKind::Kind),
        Cell::Text(_) => kind_unless(is_of("java/lang/String", name)),
        Cell::Out | Cell::Object(_) => {
            if is_of(class_of_value(linked, state, cell), name) {
                None
            } else if name == "java/lang/String" {
                Some(BadKind::Kind)
            } else {
                Some(BadKind::Member)
            }
        }
    }
}

/// Why a value doesn't meet a type.
#[inline(always)]
pub(crate) fn misfit_type(
    linked: &Linked,
    state: &State,
    field_type: FieldType<'_>,
    cell: Cell,
) -> Option<BadKind>
    ensures { result ≡ model.misfit_type linked.now (state_of state.now).heap (type_view field_type.entry)
        (value_in state.now.texts cell) }
{
    match field_type {
        FieldType::Named(name) => misfit_class(linked, state, name, cell),
        FieldType::Texts => kind_unless(is_null(cell)),
        FieldType::Int | FieldType::Truth => kind_unless(!is_reference(cell)),
    }
}

fn misfit_sort(sort: Sort, cell: Cell) -> Option<BadKind>
    ensures { (texts : List Name) → result ≡ model.misfit_sort (sort_of sort) (value_in texts cell) }
{
    match sort {
        Sort::Number => kind_unless(!is_reference(cell)),
        Sort::Reference => kind_unless(is_reference(cell)),
    }
}

/// Why a value isn't what an operand must be.
fn misfit(linked: &Linked, state: &State, want: &Want<'_>, cell: Cell) -> Option<BadKind>
    ensures { result ≡ model.misfit linked.now (state_of state.now).heap (want_of want.now)
        (value_in state.now.texts cell) }
{
    match want {
        Want::Any => None,
        Want::Sorted(sort) => misfit_sort(*sort, cell),
        Want::Typed(field_type) => misfit_type(linked, state, *field_type, cell),
        Want::Returned(sort, result) => {
            if let Some(kind) = misfit_sort(*sort, cell) {
                return Some(kind);
            }
            match result {
                Some(field_type) => misfit_type(linked, state, *field_type, cell),
                None => None,
            }
        }
    }
}

/// What was found, and one more.
fn noted(found: Found, misfit: Option<BadKind>) -> Found
    ensures kind { result.kind ≡ (found.kind || model.is_kind misfit) }
    ensures member { result.member ≡ (found.member || model.is_member misfit) }
{
    Found {
        kind: found.kind || matches!(misfit, Some(BadKind::Kind)),
        member: found.member || matches!(misfit, Some(BadKind::Member)),
    }
}

/// What was found, and what is wrong with the operands that are taken.
fn misfits(first: Found, linked: &Linked, state: &State, takes: &[Want<'_>]) -> Found
    requires { length takes.now ≤ length (operands_of state.now) }
    ensures kind { result.kind ≡ (first.kind || model.some_of model.is_kind
        (model.misfits linked.now (state_of state.now).heap (wants_of takes.now)
        (model.on_top (length takes.now) (operands_of state.now)))) }
    ensures member { result.member ≡ (first.member || model.some_of model.is_member
        (model.misfits linked.now (state_of state.now).heap (wants_of takes.now)
        (model.on_top (length takes.now) (operands_of state.now)))) }
{
    let mut found = first;
    for (at, want) in takes.iter().enumerate() {
        let cell = state.operand(takes.len() - 1 - at);
        found = noted(found, misfit(linked, state, want, cell));
    }
    found
}

/// Why a local that is read isn't what it must be.
fn misfit_read(reads: Option<(u8, Sort)>, state: &State) -> Option<BadKind>
    ensures { result ≡ model.misfit_read (option_map (λ r. (r.0, sort_of r.1)) reads) (state_of state.now).frame.locals }
{
    let Some((local, sort)) = reads else {
        return None;
    };
    let local = usize::from(local);
    if local >= state.locals() {
        return None;
    }
    match state.held(local) {
        Some(cell) => misfit_sort(sort, cell),
        None => Some(BadKind::Kind),
    }
}

/// What is wrong, where there are operands enough.
fn judged(needs: &Needs<'_>, found: Found) -> Option<BadKind>
    ensures { result ≡ judged (needs_of needs.now) found.kind found.member }
{
    if found.kind {
        Some(BadKind::Kind)
    } else if needs.of_locals < needs.locals {
        Some(BadKind::Local)
    } else if found.member {
        Some(BadKind::Member)
    } else if !needs.returns {
        Some(BadKind::Return)
    } else if needs.max_stack < needs.operands {
        Some(BadKind::Overflow)
    } else {
        None
    }
}

/// What is wrong, where something is. The tests stand in this order.
pub(crate) fn wrong(linked: &Linked, state: &State, needs: &Needs<'_>) -> Option<BadKind>
    ensures { result ≡ model.wrong linked.now (needs_of needs.now) (state_of state.now) }
{
    let takes = needs.takes;
    if state.depth() < takes.len() {
        return Some(BadKind::Underflow);
    }
    let nothing = Found {
        kind: false,
        member: false,
    };
    let read = noted(nothing, misfit_read(needs.reads, state));
    let found = misfits(read, linked, state, takes);
    judged(needs, found)
}

/// An instruction takes these operands, and gives so many.
pub(crate) fn taking<'a>(
    linked: &Linked,
    state: &State,
    takes: &'a [Want<'a>],
    gives: usize,
) -> Needs<'a>
    requires { gives ≤ 2 }
    ensures needs { needs_of result ≡ model.taking linked.now (state_of state.now) (wants_of takes.now) gives }
    ensures small { model.max_stack_in (model.method_of_frame linked.now (state_of state.now).frame) ≤ most }
{
    Needs {
        takes,
        reads: None,
        locals: 0,
        of_locals: state.locals(),
        returns: true,
        operands: state.depth().saturating_sub(takes.len()) + gives,
        max_stack: max_stack(method_at(linked, state.class(), state.method())),
    }
}

/// A method has at most `most` operands. The function carries a law; its body does nothing else.
#[inline(always)]
pub(crate) fn bound_room(linked: &Linked, state: &State)
    ensures { model.max_stack_in (model.method_of_frame linked.now (state_of state.now).frame) ≤ most }
{
    let _room = max_stack(method_at(linked, state.class(), state.method()));
}
