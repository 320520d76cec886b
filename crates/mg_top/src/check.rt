//! The command `check`: what the least tables of a program have, or its first refusal, or all that is wrong.

ghost use Rattle.std.specs.Prelude.{◌≡◌, ◌<◌, ◌^◌, length, true, false, IfOk};
ghost use Rattle.use_verdict.specs.Verdict.{AreAnswer};
ghost use Rattle.mg_sources.specs.Files.{HaveKinds};
ghost use Rattle.mg_words.specs.Words.{Check};
ghost use Rattle.mg_top.specs.Commands.{Gives, prints};
ghost use Rattle.mg_top.specs.inner.Preparing.{IsCarried, IsReported};

use crate::run::add_print;
use mg_accepted::{AcceptedProgram, accept};
use mg_delivery::{Delivery, Status, lines};
use mg_faults::{Finding, find};
use mg_refusal::Stop;
use mg_text::{Bytes, List, Memory, Text};
use std::alloc::Global;
use use_check::report;

/// The report of the program that the files are, or the first refusal, or where `all` is true a line for each.
pub fn check(alloc: Global, all: bool, names: &[Text], contents: &[Bytes]) -> Result<Delivery, Stop>
    requires same { length names.now ≡ length contents.now }
    requires count { length contents.now < 2 ^ 32 }
    requires kinds { HaveKinds names.now }
    ensures { IsCarried (Check all names.now) contents.now result }
{
    if all {
        let delivery = check_all(alloc, names, contents)?;
        return Ok(delivery);
    }
    check_first(alloc, names, contents)
}

// The same, with the first refusal.
fn check_first(alloc: Global, names: &[Text], contents: &[Bytes]) -> Result<Delivery, Stop>
    requires same { length names.now ≡ length contents.now }
    requires count { length contents.now < 2 ^ 32 }
    requires kinds { HaveKinds names.now }
    ensures { IsCarried (Check false names.now) contents.now result }
{
    let program = accept(alloc, names, contents)?;
    Ok(show(alloc, &program)?)
}

// The same, with all that is wrong.
fn check_all(alloc: Global, names: &[Text], contents: &[Bytes]) -> Result<Delivery, Memory>
    requires same { length names.now ≡ length contents.now }
    requires count { length contents.now < 2 ^ 32 }
    requires kinds { HaveKinds names.now }
    ensures { IfOk result (λ d. Gives (Check true names.now) contents.now d.actions.items d.status) }
{
    let found = find(alloc, names, contents)?;
    match found {
        Finding::Accepted(program) => show(alloc, &program),
        Finding::Refused(refusals) => {
            let text = lines::all_refused(alloc, names, refusals.as_slice())?;
            Delivery::said(alloc, text, Status::Refused)
        }
    }
}

// The report of an accepted program on standard output.
fn show(alloc: Global, program: &AcceptedProgram) -> Result<Delivery, Memory>
    requires { AreAnswer program.now.core program.now.accepted.tables }
    ensures { IfOk result (λ d. IsReported program.now.core d.actions.items d.status) }
{
    let text = report(alloc, &program.core, &program.accepted)?;
    print(alloc, text.as_str())
}

/// A text on standard output; an empty one isn't put.
pub(crate) fn print(alloc: Global, text: &str) -> Result<Delivery, Memory>
    ensures actions { IfOk result (λ d. d.actions.items ≡ prints text.now) }
    ensures status { IfOk result (λ d. d.status ≡ Status.Done) }
{
    let mut actions = List::new(alloc);
    let text = Bytes::of(alloc, text.as_bytes())?;
    add_print(text, &mut actions)?;
    Ok(Delivery {
        actions,
        status: Status::Done,
    })
}
