//! The conditions on the declarations, one after another in the order of their numbers, and the
//! tables of a program that meets them.

ghost use Rattle.std.specs.Prelude.{◌≡◌, IfOk, IfErr, OnOk, None, length, map, option_map};
ghost use Rattle.jv_rules.specs.Faults.{IsTableFault};
ghost use Rattle.jv_rules.specs.inner.Deciding.{told};
ghost use Rattle.jv_types.specs.Outcome.{TellsFault};
ghost use Rattle.jv_types.specs.Tables.{program_in};
ghost use Rattle.jv_types.specs.View.{program_of};
ghost use Rattle.jv_types.specs.inner.Blaming.{blamed_of};
ghost use Rattle.jv_types.specs.inner.Judging.{TellsOne};
ghost use Rattle.jv_tree.specs.View.{decl_of};
ghost use Rattle.jv_types.specs.inner.Kept.{kept_decls};
ghost use Rattle.jv_types.specs.inner.Tabled.{AreEntriesOf};
ghost use Rattle.jv_types.specs.inner.Deciding.{found_of, early_in, fields_found, demands_found, later_found, IsLater};

use crate::blame::Blamed;
use crate::build::{build, declarations};
use crate::demands::{missing_method, signature_differs};
use crate::entry::ClassEntry;
use crate::fault::{TypeFault, fault_of};
use crate::fields::field_needs_value;
use crate::judged::Wrong;
use crate::labels::labels_differ;
use crate::mentions::unknown_class;
use crate::name_table::Table;
use crate::plain::{instance_in_plain, unknown_typestate};
use crate::repeats::{repeated, repeated_type, repeated_typestate};
use jv_rules::Condition;
use jv_tree::{Decl, File};
use mg_text::Memory;
use std::alloc::Global;
use ts_tree::Typestate;

/// A condition that is at fault, and who is.
#[derive(Clone, Copy)]
pub(crate) struct Found<'a> {
    pub condition: Condition,
    pub blamed: Blamed<'a>,
}

// This condition is at fault, where somebody is.
fn found_by<'a>(condition: Condition, found: Option<Blamed<'a>>) -> Option<Found<'a>>
    ensures { option_map found_of result ≡ told condition (option_map blamed_of found.entry) None }
{
    match found {
        Some(blamed) => Some(Found { condition, blamed }),
        None => None,
    }
}

// Names that are declared twice.
fn early_fault<'a>(
    alloc: Global,
    decls: &[&'a Decl],
    typestates: &'a [Typestate],
    origins: &[u32],
) -> Result<Option<Found<'a>>, Memory>
    ensures { IfOk result (λ o. option_map found_of o ≡ early_in (map (λ d. decl_of d.now) decls.now) typestates.now origins.now) }
{
    let found = repeated_type(alloc, decls)?;
    if found.is_some() {
        return Ok(found_by(Condition::DuplicateName, found));
    }
    let found = repeated_typestate(alloc, typestates, origins)?;
    if found.is_some() {
        return Ok(found_by(Condition::DuplicateName, found));
    }
    let found = repeated(alloc, decls)?;
    Ok(found_by(Condition::DuplicateMember, found))
}

// What is wrong with fields and with classes without typestates.
fn fields_fault<'a>(
    alloc: Global,
    table: &Table<'_>,
    entries: &[ClassEntry<'a>],
) -> Result<Option<Found<'a>>, Memory>
    ensures { IfOk result (λ o. option_map found_of o ≡ fields_found (program_in table.now) entries.now) }
{
    let found = field_needs_value(table, entries);
    if found.is_some() {
        return Ok(found_by(Condition::FieldNeedsValue, found));
    }
    let found = instance_in_plain(alloc, entries)?;
    Ok(found_by(Condition::InstanceInPlain, found))
}

// What is wrong with what typestates demand, or later.
fn demands_fault<'a>(
    alloc: Global,
    table: &Table<'a>,
    entries: &[ClassEntry<'a>],
) -> Result<Option<Found<'a>>, Memory>
    requires { AreEntriesOf (program_in table.now) entries.now }
    ensures { IfOk result (λ o. option_map found_of o ≡ demands_found (program_in table.now) entries.now) }
{
    let found = missing_method(table, entries);
    if found.is_some() {
        return Ok(found_by(Condition::MissingMethod, found));
    }
    let found = signature_differs(alloc, table, entries)?;
    if found.is_some() {
        return Ok(found_by(Condition::SignatureDiffers, found));
    }
    let found = labels_differ(alloc, table, entries)?;
    if found.is_some() {
        return Ok(found_by(Condition::LabelsDiffer, found));
    }
    fields_fault(alloc, table, entries)
}

// What the tables tell to be wrong.
fn later_fault<'a>(
    alloc: Global,
    table: &Table<'a>,
    entries: &[ClassEntry<'a>],
) -> Result<Option<Found<'a>>, Memory>
    requires { AreEntriesOf (program_in table.now) entries.now }
    ensures { IfOk result (λ o. option_map found_of o ≡ later_found (program_in table.now) entries.now) }
{
    let found = unknown_class(alloc, table, entries)?;
    if found.is_some() {
        return Ok(found_by(Condition::UnknownClass, found));
    }
    let found = unknown_typestate(entries);
    if found.is_some() {
        return Ok(found_by(Condition::UnknownTypestate, found));
    }
    demands_fault(alloc, table, entries)
}

// The tables of a program in which no name is declared twice.
fn tables_of<'a>(
    alloc: Global,
    files: &'a [File],
    typestates: &'a [Typestate],
    origins: &[u32],
) -> Result<Table<'a>, Wrong<'a>>
    requires { length origins.now ≡ length typestates.now }
    ensures program { IfOk result (λ t. program_in t ≡ program_of files.now typestates.now) }
    ensures fine { OnOk result (early_in (map decl_of (kept_decls files.now)) typestates.now origins.now ≡ None) }
    ensures fault { IfErr result (λ w. TellsOne (IsTableFault (program_of files.now typestates.now) origins.now) w) }
{
    let decls = declarations(alloc, files)?;
    if let Some(found) = early_fault(alloc, decls.as_slice(), typestates, origins)? {
        return Err(Wrong::Fault(found.condition, found.blamed.place, found.blamed.name));
    }
    let table = build(alloc, files, typestates, decls.as_slice())?;
    Ok(table)
}

// Judges what the tables tell.
fn check_tables<'a>(alloc: Global, table: &Table<'a>) -> Result<(), Wrong<'a>>
    ensures fine { OnOk result (IsLater (program_in table.now) None) }
    ensures fault { IfErr result (λ w. TellsOne (IsLater (program_in table.now)) w) }
{
    match later_fault(alloc, table, table.classes())? {
        Some(found) => Err(Wrong::Fault(found.condition, found.blamed.place, found.blamed.name)),
        None => Ok(()),
    }
}

/// The declarations of a program in tables by name. `origins` has the number of the file of each
/// typestate, in their order.
///
/// # Errors
/// The fault of the first condition on the declarations that is at fault, in the order of their
/// numbers, and there the first in file and text order; and `Memory`.
pub fn table<'a>(
    alloc: Global,
    files: &'a [File],
    typestates: &'a [Typestate],
    origins: &[u32],
) -> Result<Table<'a>, TypeFault>
    requires { length origins.now ≡ length typestates.now }
    ensures program { IfOk result (λ t. program_in t ≡ program_of files.now typestates.now) }
    ensures fine { OnOk result (IsTableFault (program_of files.now typestates.now) origins.now None) }
    ensures fault { IfErr result (λ e. TellsFault (IsTableFault (program_of files.now typestates.now) origins.now) e) }
{
    match tables_of(alloc, files, typestates, origins) {
        Err(wrong) => Err(fault_of(alloc, wrong)),
        Ok(table) => match check_tables(alloc, &table) {
            Err(wrong) => Err(fault_of(alloc, wrong)),
            Ok(()) => Ok(table),
        },
    }
}
