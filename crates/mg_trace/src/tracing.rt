//! The trace of a run: the lines of its events.

ghost use Rattle.std.specs.Prelude.{◌≡◌, List as Seq, [], ◌∷◌, ◌++◌, IfOk, OnOk, string_bytes};
ghost use Rattle.vm_world_law.specs.declared.role.RoleEvent.{RoleEvent as Seen};
ghost use Rattle.vm_events.specs.Seen.{role_event_of};
ghost use Rattle.mg_trace.specs.Trace.{trace, plain_trace, lines_from};
ghost use Rattle.mg_trace.specs.inner.Kept.{AreKnown};
ghost use Rattle.mg_trace.specs.inner.Tabled.{AreTold, telling_of};

use crate::lines::push_line;
use crate::names::role_name;
use crate::objects::{Tracked, note};
use crate::results::{Answers, Results};
use crate::roles::{make_room, objects_of};
use jv_core::Core;
use mg_text::{Memory, Text};
use std::alloc::Global;
use vm_events::{Events, Noted};

/// The trace of a run: the lines of these events, in their order, each behind the name of its role.
/// A text that is printed has no line. `names` are those of the roles, by their numbers; a role
/// without one has the empty name.
///
/// # Errors
/// `Memory` only.
pub fn trace(alloc: Global, core: &Core, names: &[Text], events: &Events) -> Result<Text, Memory>
    ensures { IfOk result (λ t. t ≡ trace core.now names.now events.now.items) }
{
    let results = Results::of(alloc, core)?;
    told(alloc, Answers::ByTypes(core, &results), names, events)
}

/// The same where no types of methods are known: what a method answered is told as the number that
/// it is.
///
/// # Errors
/// `Memory` only.
pub fn plain_trace(alloc: Global, names: &[Text], events: &Events) -> Result<Text, Memory>
    ensures { IfOk result (λ t. t ≡ plain_trace names.now events.now.items) }
{
    told(alloc, Answers::AsNumbers, names, events)
}

// The lines of these events, with answers told like this.
fn told(
    alloc: Global,
    answers: Answers<'_>,
    names: &[Text],
    events: &Events,
) -> Result<Text, Memory>
    requires { AreTold answers }
    ensures { IfOk result (λ t. t ≡ lines_from (telling_of answers.entry) names.now [] events.now.items) }
{
    let mut roles = Vec::new(alloc);
    let mut lines = String::new(alloc);
    for place in 0..events.len() {
        let seen = events.at(place);
        push_next(alloc, answers, names, &mut roles, seen, &mut lines)?;
    }
    Ok(Text::from_string(lines))
}

// Appends the line of one event more, and keeps what it tells of the objects of its role.
fn push_next<'a>(
    alloc: Global,
    answers: Answers<'_>,
    names: &[Text],
    roles: &mut Vec<Vec<Tracked<'a>>>,
    seen: Noted<'a>,
    lines: &mut String,
) -> Result<(), Memory>
    requires { AreTold answers }
    ensures { (before : Seq Seen) → AreKnown roles.old.items before →
        string_bytes lines.old ≡ lines_from (telling_of answers.entry) names.now [] before →
        OnOk result (AreKnown roles.new.items (before ++ role_event_of seen.entry ∷ [])
        × (string_bytes lines.new ≡ lines_from (telling_of answers.entry) names.now [] (before ++ role_event_of seen.entry ∷ []))) }
{
    make_room(alloc, roles, seen.role)?;
    let name = role_name(names, seen.role);
    let objects = objects_of(roles.as_slice(), seen.role);
    push_line(answers, name, objects, seen.event, lines)?;
    note(alloc, &mut roles[seen.role as usize], seen.event)
}
