//! What is shown of a document of a program.

ghost use Rattle.std.specs.Prelude.{◌≡◌, ◌<◌, ◌^◌, IfOk, MatchOption, length};
ghost use Rattle.std.specs.Str.{IsUtf8};
ghost use Rattle.jv_core.specs.Tree.{Program};
ghost use Rattle.mg_sources.specs.Files.{HaveKinds, sources};
ghost use Rattle.mg_accepted.specs.Program.{HaveCore};
ghost use Rattle.lsp_sights.specs.Answers.{bytes_at, AreHinted, IsHovered};

use crate::behind::hints_in;
use crate::hovers::hover_at;
use jv_core::Core;
use lsp_messages::{Answer, Hint};
use lsp_text::{Encoding, Position, Range};
use mg_accepted::resolve_program;
use mg_refusal::Stop;
use mg_text::{Bytes, Memory, Text};
use std::alloc::Global;
use std::str;

/// The text of the file of a number, where its bytes are one.
pub fn text_at(contents: &[Bytes], file: u32) -> Option<&str>
    ensures { MatchOption result (¬ IsUtf8 (bytes_at contents.now file))
        (λ t. (t.now ≡ bytes_at contents.now file) × IsUtf8 (bytes_at contents.now file)) }
{
    let bytes = match contents.get(file as usize) {
        Some(bytes) => bytes.as_slice(),
        None => &[],
    };
    str::from_utf8(bytes).ok()
}

/// The core of files, if they have one.
///
/// # Errors
/// `Memory` where memory is wanted, or where a program has more parts than a core can number.
pub fn core_of(alloc: Global, names: &[Text], contents: &[Bytes]) -> Result<Option<Core>, Memory>
    requires same { length names.now ≡ length contents.now }
    requires count { length contents.now < 2 ^ 32 }
    requires kinds { HaveKinds names.now }
    ensures { IfOk result (λ o. MatchOption o ((core : Program) → ¬ HaveCore (sources names.now contents.now) core)
        (λ core. HaveCore (sources names.now contents.now) core)) }
{
    match resolve_program(alloc, names, contents) {
        Ok(core) => Ok(Some(core)),
        Err(Stop::Refused(_refusal)) => Ok(None),
        Err(Stop::Memory) => Err(Memory),
    }
}

/// The hints in a range of the file of this number: behind the path `x.m` of each call that begins there stands what
/// `x` may be from there on. Files that have no core have none, nor has a file whose bytes are no text.
///
/// # Errors
/// `Memory` where memory is wanted, or where a program has more parts than a core can number.
pub fn hints(
    alloc: Global,
    names: &[Text],
    contents: &[Bytes],
    encoding: Encoding,
    file: u32,
    range: Range,
) -> Result<Vec<Hint>, Memory>
    requires same { length names.now ≡ length contents.now }
    requires count { length contents.now < 2 ^ 32 }
    requires kinds { HaveKinds names.now }
    ensures { IfOk result (λ v. AreHinted encoding names.now contents.now file range v.items) }
{
    let Some(text) = text_at(contents, file) else {
        return Ok(Vec::new(alloc));
    };
    match core_of(alloc, names, contents)? {
        Some(core) => hints_in(alloc, &core, text, encoding, file, range),
        None => Ok(Vec::new(alloc)),
    }
}

/// What is answered over a position of the file of this number. Over the path `x.m` of a call stands what `show` says
/// of it, and then what each state offers that `x` may be in. Files that have no core get nothing, nor does a file
/// whose bytes are no text.
///
/// # Errors
/// `Memory` where memory is wanted, or where a program has more parts than a core can number.
pub fn hover(
    alloc: Global,
    names: &[Text],
    contents: &[Bytes],
    encoding: Encoding,
    file: u32,
    position: Position,
) -> Result<Answer, Memory>
    requires same { length names.now ≡ length contents.now }
    requires count { length contents.now < 2 ^ 32 }
    requires kinds { HaveKinds names.now }
    ensures { IfOk result (λ a. IsHovered encoding names.now contents.now file position a) }
{
    let Some(text) = text_at(contents, file) else {
        return Ok(Answer::Nothing);
    };
    match core_of(alloc, names, contents)? {
        Some(core) => hover_at(alloc, &core, text, encoding, file, position),
        None => Ok(Answer::Nothing),
    }
}
