//! The methods of states, where a typestate file has their names.

ghost use Rattle.std.specs.Prelude.{◌≡◌, ◌++◌, ◌∷◌, [], IfOk, OnOk, Some, map, option_map};
ghost use Rattle.std.specs.List.{flat_map};
ghost use Rattle.ts_parse.specs.Written.{WFile, wentry_of, wfile_of, wstate_of};
ghost use Rattle.ts_read.specs.Outcome.{Spells};
ghost use Rattle.lsp_defined.specs.Spots.{spot, entry_spots, state_spots, method_spots};

use crate::spots::Spot;
use mg_read::ParseFault;
use mg_text::{Memory, Text};
use std::alloc::Global;
use ts_parse::{
    LexFault, Naming, WrittenEntry, WrittenState, WrittenTypestate, read_written, tokens,
};
use ts_read::MAX_BYTES;

/// What the bytes of a typestate file spell, if they spell something.
///
/// # Errors
/// `Memory` only.
pub(crate) fn written_in(
    alloc: Global,
    file: u32,
    bytes: &[u8],
) -> Result<Option<WrittenTypestate>, Memory>
    ensures { (w : WFile) → Spells file bytes.now w → IfOk result (λ o. option_map wfile_of o ≡ Some w) }
{
    if bytes.len() > MAX_BYTES {
        return Ok(None);
    }
    let tokens = match tokens(alloc, file, bytes) {
        Ok(tokens) => tokens,
        Err(LexFault::BadByte(_)) => return Ok(None),
        Err(LexFault::Memory) => return Err(Memory),
    };
    match read_written(alloc, tokens.as_slice()) {
        Ok(written) => Ok(Some(written)),
        Err(ParseFault::Syntax(_)) => Ok(None),
        Err(ParseFault::Memory) => Err(Memory),
    }
}

// Appends a method of a state of this name.
fn put_method(spots: &mut Vec<Spot>, state: &Text, method: &Naming) -> Result<(), Memory>
    ensures { OnOk result (spots.new.items ≡ spots.old.items ++ spot method.now.place (Some state.now) method.now.text ∷ []) }
{
    let state = state.copy()?;
    let name = method.text.copy()?;
    spots.push(Spot {
        place: method.place,
        state: Some(state),
        method: name,
    })?;
    Ok(())
}

// Appends an entry of a state of this name, if it is a method.
fn put_entry(spots: &mut Vec<Spot>, state: &Text, entry: &WrittenEntry) -> Result<(), Memory>
    ensures { OnOk result (spots.new.items ≡ spots.old.items ++ entry_spots state.now (wentry_of entry.now)) }
{
    match entry {
        WrittenEntry::Method(method) => put_method(spots, state, &method.name),
        WrittenEntry::DropEnd(_) => Ok(()),
    }
}

// Appends the methods of a state.
fn put_state(spots: &mut Vec<Spot>, state: &WrittenState) -> Result<(), Memory>
    ensures { OnOk result (spots.new.items ≡ spots.old.items ++ state_spots (wstate_of state.now)) }
{
    put_entries(spots, &state.name.text, state.entries.as_slice())
}

// Appends the methods among entries.
fn put_entries(spots: &mut Vec<Spot>, state: &Text, entries: &[WrittenEntry]) -> Result<(), Memory>
    ensures { OnOk result (spots.new.items ≡ spots.old.items ++ flat_map (entry_spots state.now) (map wentry_of entries.now)) }
{
    for entry in entries {
        put_entry(spots, state, entry)?;
    }
    Ok(())
}

// Appends the methods of states.
fn put_states(spots: &mut Vec<Spot>, states: &[WrittenState]) -> Result<(), Memory>
    ensures { OnOk result (spots.new.items ≡ spots.old.items ++ flat_map state_spots (map wstate_of states.now)) }
{
    for state in states {
        put_state(spots, state)?;
    }
    Ok(())
}

/// The methods of a typestate file, in the order of the text.
///
/// # Errors
/// `Memory` only.
pub(crate) fn method_spots(alloc: Global, written: &WrittenTypestate) -> Result<Vec<Spot>, Memory>
    ensures { IfOk result (λ v. v.items ≡ method_spots (wfile_of written.now)) }
{
    let mut spots = Vec::new(alloc);
    put_states(&mut spots, written.states.as_slice())?;
    Ok(spots)
}
