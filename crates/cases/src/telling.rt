//! Answers the cases of files, and prints those whose answer isn't the wanted one.

use crate::case::Case;
use crate::reading::cases_of;
use crate::{Answer, CasesFault};
use mg_text::Memory;
use std::alloc::Global;
use std::fs;
use std::rt::Files;

/// What answers cases.
pub trait Answers {
    /// Adds the answer to what a case of the file of this name gives.
    fn answer(
        &self,
        alloc: Global,
        answer: &mut Answer,
        file: &str,
        given: &[u8],
    ) -> Result<(), Memory>;
}

/// Prints a line for each case of these files whose answer isn't the wanted one, and behind those of
/// a file how many cases it has.
pub fn tell<R: Files + Print + AllocGlobal>(
    rt: &R,
    answers: &impl Answers,
    files: &[&str],
) -> Result<(), CasesFault> {
    for file in files {
        let cases = cases_in(rt, *file)?;
        tell_cases(rt, answers, *file, cases.as_slice())?;
    }
    Ok(())
}

fn cases_in<R: Files + AllocGlobal>(rt: &R, file: &str) -> Result<Vec<Case>, CasesFault> {
    let text = fs::read_to_string(rt, file)?;
    cases_of(rt.alloc(), text.as_str())
}

fn tell_cases<R: Print + AllocGlobal>(
    rt: &R,
    answers: &impl Answers,
    file: &str,
    cases: &[Case],
) -> Result<(), CasesFault> {
    let mut frame = None;
    let mut count: usize = 0;
    for case in cases {
        if case.name.as_str() == "frame" {
            frame = str::from_utf8(case.given.bytes.as_slice()).ok();
        } else {
            tell_case(rt, answers, file, frame, case)?;
            count = count.saturating_add(1);
        }
    }
    println!(rt; "{file}: {count} cases")?;
    Ok(())
}

fn tell_case<R: Print + AllocGlobal>(
    rt: &R,
    answers: &impl Answers,
    file: &str,
    frame: Option<&str>,
    case: &Case,
) -> Result<(), CasesFault> {
    let given = case.given.bytes.as_slice();
    let answer = answer_to(rt.alloc(), answers, file, frame, given)?;
    if !case.wants(answer.as_str()) {
        let name = case.name.as_str();
        println!(rt; "{file}: {name}: found {answer}")?;
    }
    Ok(())
}

/// What stands in a frame for what a case gives.
const MARK: &str = "BODY";

// The answer to what a case gives, in a frame where there is one.
fn answer_to(
    alloc: Global,
    answers: &impl Answers,
    file: &str,
    frame: Option<&str>,
    given: &[u8],
) -> Result<String, Memory> {
    let mut answer = Answer::new(alloc);
    match frame {
        None => answers.answer(alloc, &mut answer, file, given)?,
        Some(frame) => {
            let body = str::from_utf8(given).unwrap_or("no text");
            let whole = frame.replace(alloc, MARK, body)?;
            answers.answer(alloc, &mut answer, file, whole.as_bytes())?;
        }
    }
    answer.into_text()
}
