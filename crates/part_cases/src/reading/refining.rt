//! Cases of refinement of typestates. A case gives two typestates, the first above a line `for` and
//! the second below it.
//!
//! `told.txt` wants what is told of whether the first stands for the second; `pairs.txt` wants the
//! pairs of places that are found, and whether these, and these without one, show that it does.
//! What is wanted is read off the typestates by hand.

use crate::reading::bases::as_text;
use cases::{Answer, Answers};
use mg_text::Memory;
use std::alloc::Global;
use ts_read::read_typestate;
use ts_refine::{Pair, PathCall, Reason, Verdict, check_relation, refine};
use ts_tree::{To, Typestate};

/// The files of cases, in the order in which they are answered.
pub const FILES: [&str; 2] = ["told.txt", "pairs.txt"];

/// Answers cases by `refine` and `check_relation`.
pub struct Refining;

impl Answers for Refining {
    fn answer(
        &self,
        alloc: Global,
        answer: &mut Answer,
        file: &str,
        given: &[u8],
    ) -> Result<(), Memory> {
        match as_text(given).split_once("\nfor\n") {
            Some((a, b)) => compared(alloc, answer, file, a.as_bytes(), b.as_bytes()),
            None => {
                answer.add("no two typestates");
                Ok(())
            }
        }
    }
}

// What a file wants of the verdict on what two texts spell.
fn compared(
    alloc: Global,
    answer: &mut Answer,
    file: &str,
    a: &[u8],
    b: &[u8],
) -> Result<(), Memory> {
    let Ok(a) = read_typestate(alloc, 0, a) else {
        answer.add("the first is refused");
        return Ok(());
    };
    let Ok(b) = read_typestate(alloc, 1, b) else {
        answer.add("the second is refused");
        return Ok(());
    };
    add_compared(alloc, answer, file, &a, &b)
}

fn add_compared(
    alloc: Global,
    answer: &mut Answer,
    file: &str,
    a: &Typestate,
    b: &Typestate,
) -> Result<(), Memory> {
    let verdict = refine(alloc, a, b)?;
    match file {
        "pairs.txt" => add_pairs(answer, a, b, &verdict),
        _ => add_verdict(answer, &verdict),
    }
    Ok(())
}

// The lines that are told of a verdict.
fn add_verdict(answer: &mut Answer, verdict: &Verdict) {
    match verdict {
        Verdict::Yes(pairs) => {
            answer.add("yes, ");
            answer.show(&pairs.len());
            answer.add(" pairs");
        }
        Verdict::No { calls, reason } => {
            answer.add("no");
            for call in calls.as_slice() {
                add_call(answer, call);
            }
            add_reason(answer, reason);
        }
    }
}

// A line of a call.
fn add_call(answer: &mut Answer, call: &PathCall) {
    answer.pair("\n", call.method.as_str());
    if let Some(label) = &call.answer {
        answer.pair(" ", label.as_str());
    }
}

// The line of a reason.
fn add_reason(answer: &mut Answer, reason: &Reason) {
    match reason {
        Reason::NoMethod(method) => answer.pair("\nNoMethod ", method.as_str()),
        Reason::SignatureDiffers(method) => answer.pair("\nSignatureDiffers ", method.as_str()),
        Reason::LabelsDiffer(method) => answer.pair("\nLabelsDiffer ", method.as_str()),
        Reason::NotFinished => answer.add("\nNotFinished"),
    }
}

// The pairs of a verdict, and what they show with and without one of them.
fn add_pairs(answer: &mut Answer, a: &Typestate, b: &Typestate, verdict: &Verdict) {
    let Verdict::Yes(pairs) = verdict else {
        return answer.add("no");
    };
    let pairs = pairs.as_slice();
    for pair in pairs {
        answer.pair(place_name(a, pair.a), " ");
        answer.pair(place_name(b, pair.b), "\n");
    }
    add_shown(answer, "all", is_shown(a, b, pairs));
    if let [_, rest @ ..] = pairs {
        add_shown(answer, "\nwithout the first", is_shown(a, b, rest));
    }
    if let [front @ .., _] = pairs {
        add_shown(answer, "\nwithout the last", is_shown(a, b, front));
    }
}

fn place_name(t: &Typestate, at: To) -> &str {
    match at {
        To::End => "end",
        To::State(n) => match t.states.as_slice().get(n as usize) {
            None => "none",
            Some(state) => state.name.as_str(),
        },
    }
}

fn is_shown(a: &Typestate, b: &Typestate, pairs: &[Pair]) -> bool {
    check_relation(a, b, pairs)
}

// What tells whether some pairs show it.
fn add_shown(answer: &mut Answer, which: &str, shown: bool) {
    answer.pair(which, if shown { ": shown" } else { ": not shown" });
}
