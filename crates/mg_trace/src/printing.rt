//! What a run prints.

ghost use Rattle.std.specs.Prelude.{◌≡◌, ◌<◌, ◌++◌, length, slice_get, IfOk, OnOk, IsSomeAnd};
ghost use Rattle.vm_events.specs.Seen.{event_of};
ghost use Rattle.mg_trace.specs.Trace.{name_at, printed, printed_line};
ghost use Rattle.mg_trace.specs.inner.Printing.{is_print};

use crate::names::role_name;
use mg_text::{Bytes, Memory, Text};
use std::alloc::Global;
use vm_events::{Events, Kind, SeenEvent};

/// What a run prints: its printed texts in the order of the events, each with a line feed behind it,
/// and, where `named`, with the name of its role and `: ` before it. `names` are those of the roles,
/// by their numbers; a role without one has the empty name.
///
/// # Errors
/// `Memory` only.
pub fn printed(alloc: Global, names: &[Text], named: bool, events: &Events) -> Result<Bytes, Memory>
    ensures { IfOk result (λ b. b ≡ printed named names.now events.now.items) }
{
    let mut bytes = Bytes::new(alloc);
    for place in 0..events.len() {
        put_next(names, named, events, place, &mut bytes)?;
    }
    Ok(bytes)
}

// Whether events of a kind print a text.
fn is_print(kind: Kind) -> bool
    ensures { result ≡ is_print kind }
{
    match kind {
        Kind::Print => true,
        Kind::Made | Kind::Enter | Kind::Leave | Kind::Send | Kind::Look | Kind::Take => false,
    }
}

// Appends the line that the event at a place prints. Only of one that prints is more read than its kind.
fn put_next(
    names: &[Text],
    named: bool,
    events: &Events,
    place: usize,
    bytes: &mut Bytes,
) -> Result<(), Memory>
    requires { place < length events.now.items }
    ensures { OnOk result (IsSomeAnd (slice_get events.now.items place) (λ e. bytes.new ≡ bytes.old ++ printed_line named (name_at names.now e.role) e.event)) }
{
    if !is_print(events.kind_at(place)) {
        return Ok(());
    }
    let seen = events.at(place);
    let name = role_name(names, seen.role);
    put_printed(name, named, seen.event, bytes)
}

// Appends the line that an event prints.
fn put_printed(
    name: &str,
    named: bool,
    event: SeenEvent<'_>,
    bytes: &mut Bytes,
) -> Result<(), Memory>
    ensures { OnOk result (bytes.new ≡ bytes.old ++ printed_line named name.now (event_of event.entry)) }
{
    let SeenEvent::Print(text) = event else {
        return Ok(());
    };
    if named {
        bytes.extend(name.as_bytes())?;
        bytes.extend(b": ")?;
    }
    bytes.extend(text.as_bytes())?;
    bytes.extend(b"\n")
}
