//! The lines of an answer. Each ends with a line feed.

ghost use Rattle.std.specs.Prelude.{◌≡◌, ◌++◌, IfOk, OnOk, map, string_bytes};
ghost use Rattle.ts_refine.specs.Verdicts.{call_of};
ghost use Rattle.mg_refined.specs.Refined.{call_line, calls_text, reason_line};
ghost use Rattle.mg_refined.specs.Refined as told;

use mg_text::{Memory, Text};
use std::alloc::Global;
use ts_refine::{PathCall, Reason};

// The line of a yes.
pub(crate) fn yes_text(alloc: Global, count: usize) -> Result<Text, Memory>
    ensures { IfOk result (λ t. t ≡ told.yes_text count) }
{
    let text = format!(in alloc; "yes, {count} pairs\n")?;
    Ok(Text::from_string(text))
}

// The lines of a no: the calls, and then the reason.
pub(crate) fn no_text(alloc: Global, calls: &[PathCall], reason: &Reason) -> Result<Text, Memory>
    ensures { IfOk result (λ t. t ≡ told.no_text (map call_of calls.now) reason.now) }
{
    let mut text = String::from_str(alloc, "no\n")?;
    push_calls(&mut text, calls)?;
    push_reason(&mut text, reason)?;
    Ok(Text::from_string(text))
}

// A line for each call.
fn push_calls(text: &mut String, calls: &[PathCall]) -> Result<(), Memory>
    ensures { OnOk result (string_bytes text.new ≡ string_bytes text.old ++ calls_text (map call_of calls.now)) }
{
    for call in calls {
        push_call(text, call)?;
    }
    Ok(())
}

// The line of a call: its method, and its answer behind a blank if it has one.
fn push_call(text: &mut String, call: &PathCall) -> Result<(), Memory>
    ensures { OnOk result (string_bytes text.new ≡ string_bytes text.old ++ call_line (call_of call.now)) }
{
    let method = call.method.as_str();
    match &call.answer {
        Some(label) => {
            write!(text, "{method} {}\n", label.as_str())?;
            Ok(())
        }
        None => {
            write!(text, "{method}\n")?;
            Ok(())
        }
    }
}

// The line of a reason, with the name of its method.
fn push_reason(text: &mut String, reason: &Reason) -> Result<(), Memory>
    ensures { OnOk result (string_bytes text.new ≡ string_bytes text.old ++ reason_line reason.now) }
{
    match reason {
        Reason::NoMethod(method) => push_flaw(text, "NoMethod ", method),
        Reason::SignatureDiffers(method) => push_flaw(text, "SignatureDiffers ", method),
        Reason::LabelsDiffer(method) => push_flaw(text, "LabelsDiffer ", method),
        Reason::NotFinished => {
            text.push_str("NotFinished\n")?;
            Ok(())
        }
    }
}

// Such a word, and a method.
fn push_flaw(text: &mut String, word: &str, method: &Text) -> Result<(), Memory>
    ensures { OnOk result (string_bytes text.new ≡ string_bytes text.old ++ told.flaw_line word.now method.now) }
{
    write!(text, "{word}{}\n", method.as_str())?;
    Ok(())
}
