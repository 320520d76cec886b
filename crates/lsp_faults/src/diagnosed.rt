//! The diagnostics of the files of a program.

ghost use Rattle.std.specs.Prelude.{◌≡◌, ◌<◌, ◌^◌, [], length, All, IfOk};
ghost use Rattle.jv_core.specs.Tree as CoreTree;
ghost use Rattle.mg_sources.specs.Files.{HaveKinds, sources};
ghost use Rattle.mg_accepted.specs.Accepted.{AreAccepted};
ghost use Rattle.lsp_faults.specs.Diagnosed.{AreDiagnosed};
ghost use Rattle.lsp_faults.specs.inner.Findings.{refusals_in};

use lsp_messages::Diagnostic;
use lsp_notes::told_by_file;
use lsp_text::Encoding;
use mg_faults::{Finding, find};
use mg_refusal::Refusal;
use mg_text::{Bytes, Memory, Text};
use std::alloc::Global;

// All that is wrong.
fn refusals_in(alloc: Global, finding: Finding) -> Vec<Refusal>
    ensures { result.items ≡ refusals_in finding }
{
    match finding {
        Finding::Accepted(_) => Vec::new(alloc),
        Finding::Refused(refusals) => refusals,
    }
}

/// What is wrong with the files of a program, as diagnostics, one list for each file in their order:
/// exactly the lines of `check --all`, in their order, each in the list of its file, and of accepted
/// files none. A range is that of the word at the line's place, in the file's text as far as it is UTF-8.
///
/// # Errors
/// `Memory` where memory is wanted, or where a program has more parts than a core can number.
pub fn diagnose(
    alloc: Global,
    names: &[Text],
    contents: &[Bytes],
    encoding: Encoding,
) -> Result<Vec<Vec<Diagnostic>>, Memory>
    requires same { length names.now ≡ length contents.now }
    requires count { length contents.now < 2 ^ 32 }
    requires kinds { HaveKinds names.now }
    // Each list has the diagnostics of what is wrong in its file, and no others.
    ensures diagnosed { IfOk result (λ v. AreDiagnosed encoding names.now contents.now v.items) }
    // Accepted files have none.
    ensures none { (core : CoreTree.Program) → AreAccepted (sources names.now contents.now) core →
        IfOk result (λ v. All (λ ds. ds.items ≡ []) v.items) }
{
    let finding = find(alloc, names, contents)?;
    told_by_file(alloc, refusals_in(alloc, finding), contents, encoding)
}
