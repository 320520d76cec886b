//! What the events of a role tell of its objects. Texts stay where the events have them.

ghost use Rattle.std.specs.Prelude.{◌≡◌, ◌<◌, ℕ, OnOk, length};
ghost use Rattle.vm_events.specs.Seen.{event_of};
ghost use Rattle.mg_trace.specs.Trace.{last_call};
ghost use Rattle.mg_trace.specs.inner.Kept.{known_at, known_of, object_in, changed, KeepsMore};

use mg_text::Memory;
use std::alloc::Global;
use vm_events::SeenEvent;

/// What the events so far tell of an object: the class of which it was made, and the methods that it
/// entered and hasn't left, in the order in which they were entered.
#[derive(Drop)]
pub(crate) struct Tracked<'a> {
    pub class: &'a str,
    pub calls: Vec<&'a str>,
}

impl<'a> Tracked<'a> {
    // The method that was entered last, of those that weren't left.
    fn last_call(&self) -> &'a str
        ensures { result.now ≡ last_call (known_of self.now).calls }
    {
        match self.calls.as_slice().last() {
            Some(method) => *method,
            None => "",
        }
    }
}

/// What is known of an object: its class, and the method that is left next.
pub(crate) fn known<'a>(objects: &[Tracked<'a>], object: u32) -> (&'a str, &'a str)
    ensures class { result.0.now ≡ (known_at objects.now object).class }
    ensures method { result.1.now ≡ last_call (known_at objects.now object).calls }
{
    match objects.get(object as usize) {
        Some(tracked) => (tracked.class, tracked.last_call()),
        None => ("", ""),
    }
}

/// What an event tells more.
pub(crate) fn note<'a>(
    alloc: Global,
    objects: &mut Vec<Tracked<'a>>,
    event: SeenEvent<'a>,
) -> Result<(), Memory>
    ensures { OnOk result (KeepsMore objects.old.items objects.new.items (event_of event.entry)) }
{
    match object_in(event) {
        None => Ok(()),
        Some(object) => {
            pad(alloc, objects, object)?;
            change(&mut objects[object as usize], event)
        }
    }
}

// The object of which an event tells, if of any.
fn object_in(event: SeenEvent<'_>) -> Option<u32>
    ensures { result ≡ object_in (event_of event.entry) }
{
    match event {
        SeenEvent::Made { object, .. } => Some(object),
        SeenEvent::Enter { object, .. } => Some(object),
        SeenEvent::Leave { object, .. } => Some(object),
        SeenEvent::Print(_)
        | SeenEvent::Send { .. }
        | SeenEvent::Look { .. }
        | SeenEvent::Take { .. } => None,
    }
}

// What an event tells more of its object: it was made, entered a method, or left the one that it had
// entered last.
fn change<'a>(tracked: &mut Tracked<'a>, event: SeenEvent<'a>) -> Result<(), Memory>
    ensures { OnOk result (known_of tracked.new ≡ changed (known_of tracked.old) (event_of event.entry)) }
{
    match event {
        SeenEvent::Made { class, .. } => {
            tracked.class = class;
            tracked.calls.clear();
            Ok(())
        }
        SeenEvent::Enter { method, .. } => {
            tracked.calls.push(method)?;
            Ok(())
        }
        SeenEvent::Leave { .. } => {
            let _method = tracked.calls.pop();
            Ok(())
        }
        SeenEvent::Print(_)
        | SeenEvent::Send { .. }
        | SeenEvent::Look { .. }
        | SeenEvent::Take { .. } => Ok(()),
    }
}

// Makes room for what is told of an object. Nothing more is known of any.
fn pad(alloc: Global, objects: &mut Vec<Tracked>, object: u32) -> Result<(), Memory>
    ensures within { OnOk result (object < length objects.new.items) }
    ensures same { OnOk result ((o : ℕ) → known_at objects.new.items o ≡ known_at objects.old.items o) }
{
    for _ in objects.len()..object as usize + 1 {
        objects.push(Tracked {
            class: "",
            calls: Vec::new(alloc),
        })?;
    }
    Ok(())
}
