//! Files as programs, where they are some.

ghost use Rattle.std.specs.Prelude.{◌≡◌, ◌<◌, [], length, IfOk, MatchOption};
ghost use Rattle.jv_core.specs.Tree.{Program};
ghost use Rattle.mg_sources.specs.Files.{sources};
ghost use Rattle.mg_sources.specs.Sources.{Sourced, AreProgram};
ghost use Rattle.mg_sources.specs.View.{sourced_of};
ghost use Rattle.mg_accepted.specs.Program.{HaveCore};
ghost use Rattle.lsp_offers.specs.Documents.{with_document};
ghost use Rattle.lsp_offers.specs.inner.Typed.{AreFiles, IsOnlyCore};

use crate::documents::with_document;
use jv_core::Core;
use mg_accepted::resolve_program;
use mg_refusal::Stop;
use mg_sources::{Sources, read_program};
use mg_text::{Bytes, Memory, Text};
use std::alloc::Global;

/// The core of files, if they have one.
///
/// # Errors
/// `Memory` where memory is wanted, or where a program has more parts than a core can number.
pub(crate) fn core_of(
    alloc: Global,
    names: &[Text],
    contents: &[Bytes],
) -> Result<Option<Core>, Memory>
    requires { AreFiles names.now contents.now }
    ensures { IfOk result (λ o. MatchOption o ((core : Program) → ¬ HaveCore (sources names.now contents.now) core)
        (IsOnlyCore (sources names.now contents.now))) }
{
    match resolve_program(alloc, names, contents) {
        Ok(core) => Ok(Some(core)),
        Err(Stop::Refused(_refusal)) => Ok(None),
        Err(Stop::Memory) => Err(Memory),
    }
}

// The program that files are, if they are one.
fn program_of(alloc: Global, names: &[Text], contents: &[Bytes]) -> Result<Option<Sources>, Memory>
    requires { AreFiles names.now contents.now }
    ensures { IfOk result (λ o. MatchOption o ((s : Sourced) → ¬ AreProgram (sources names.now contents.now) s)
        (λ s. AreProgram (sources names.now contents.now) (sourced_of s))) }
{
    match read_program(alloc, names, contents) {
        Ok(sources) => Ok(Some(sources)),
        Err(Stop::Refused(_refusal)) => Ok(None),
        Err(Stop::Memory) => Err(Memory),
    }
}

/// The program that files are without the text of the file of a number, if they are one.
///
/// # Errors
/// `Memory` only.
pub(crate) fn program_without(
    alloc: Global,
    names: &[Text],
    contents: &[Bytes],
    file: u32,
) -> Result<Option<Sources>, Memory>
    requires files { AreFiles names.now contents.now }
    requires within { file < length contents.now }
    ensures { IfOk result (λ o.
        MatchOption o ((s : Sourced) → ¬ AreProgram (sources names.now (with_document contents.now file [])) s)
        (λ s. AreProgram (sources names.now (with_document contents.now file [])) (sourced_of s))) }
{
    let others = with_document(alloc, contents, file, &[])?;
    program_of(alloc, names, others.as_slice())
}
