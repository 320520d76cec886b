//! The line of an event, by what is known of its object.

ghost use Rattle.std.specs.Prelude.{◌≡◌, ◌++◌, OnOk, string_bytes, codes};
ghost use Rattle.vm_events.specs.Seen.{carried_of, event_of};
ghost use Rattle.mg_trace.specs.Trace.{line_of, event_words, object_of, object_words, carried_words};
ghost use Rattle.mg_trace.specs.inner.Kept.{known_at};
ghost use Rattle.mg_trace.specs.inner.Tabled.{AreTold, telling_of};
ghost use Rattle.mg_trace.specs.inner.Words.{word_text};

use crate::objects::{Tracked, known};
use crate::results::Answers;
use crate::words::{Word, carried_word, push_word, told_word};
use mg_text::Memory;
use vm_events::{SeenCarried, SeenEvent};

/// Appends the line of an event of the role of this name. A text that is printed has none.
pub(crate) fn push_line(
    answers: Answers<'_>,
    name: &str,
    objects: &[Tracked],
    event: SeenEvent<'_>,
    lines: &mut String,
) -> Result<(), Memory>
    ensures { AreTold answers.entry → OnOk result (string_bytes lines.new ≡ string_bytes lines.old
        ++ line_of (telling_of answers.entry) name.now (known_at objects.now (object_of (event_of event.entry))) (event_of event.entry)) }
{
    if let SeenEvent::Print(_) = event {
        return Ok(());
    }
    write!(lines, "{name} ")?;
    push_event(answers, objects, event, lines)?;
    lines.push_str("\n")?;
    Ok(())
}

// Appends an event in words.
fn push_event(
    answers: Answers<'_>,
    objects: &[Tracked],
    event: SeenEvent<'_>,
    lines: &mut String,
) -> Result<(), Memory>
    ensures { AreTold answers.entry → OnOk result (string_bytes lines.new ≡ string_bytes lines.old
        ++ event_words (telling_of answers.entry) (known_at objects.now (object_of (event_of event.entry))) (event_of event.entry)) }
{
    match event {
        SeenEvent::Print(_) => Ok(()),
        SeenEvent::Made { object, class } => {
            push_object("made ", class, object, Word::Nothing, lines)
        }
        SeenEvent::Enter { object, method } => {
            let (class, _) = known(objects, object);
            push_object("enter ", class, object, Word::Said(method), lines)
        }
        SeenEvent::Leave { object, answer } => {
            let (class, method) = known(objects, object);
            push_object("leave ", class, object, Word::Said(method), lines)?;
            push_word(told_word(answers, class, method, answer), lines)
        }
        SeenEvent::Send {
            peer,
            label,
            payload,
        } => push_message("send ", peer, label, payload, lines),
        SeenEvent::Look { peer, label } => {
            push_message("look ", peer, label, SeenCarried::Nothing, lines)
        }
        SeenEvent::Take {
            peer,
            label,
            payload,
        } => push_message("take ", peer, label, payload, lines),
    }
}

// Appends what is told of an object of a class, with the method that it is told of.
fn push_object(
    what: &str,
    class: &str,
    object: u32,
    method: Word<'_>,
    lines: &mut String,
) -> Result<(), Memory>
    ensures { OnOk result (string_bytes lines.new ≡ string_bytes lines.old
        ++ (what.now ++ object_words class.now object ++ word_text method.entry)) }
{
    write!(lines, "{what}{class}#{object}")?;
    push_word(method, lines)
}

// Appends a message to or from a peer.
fn push_message(
    what: &str,
    peer: &str,
    label: &str,
    payload: SeenCarried<'_>,
    lines: &mut String,
) -> Result<(), Memory>
    ensures { OnOk result (string_bytes lines.new ≡ string_bytes lines.old
        ++ (what.now ++ peer.now ++ codes " " ++ label.now ++ carried_words (carried_of payload.entry))) }
{
    write!(lines, "{what}{peer} {label}")?;
    push_word(carried_word(payload), lines)
}
