//! The files of a program, and what each spells.

ghost use Rattle.std.specs.Prelude.{◌≡◌, IfOk, IfSome, length, option_map, slice_get};
ghost use Rattle.mg_sources.specs.Files.{HaveKinds, Kind, IsOf, sources};
ghost use Rattle.mg_sources.specs.Parts.{part_of};
ghost use Rattle.lsp_defined.specs.Files.{IsPartOf};
ghost use Rattle.lsp_defined.specs.inner.Filed.{source_in};

use mg_refusal::Stop;
use mg_sources::{Part, read_part};
use mg_text::{Bytes, Memory, Text};
use std::alloc::Global;

/// A file: its number, its name and its bytes.
#[derive(Clone, Copy)]
pub(crate) struct SourceFile<'a> {
    pub number: u32,
    pub name: &'a Text,
    pub bytes: &'a [u8],
}

/// The file of a number, if there is one.
pub(crate) fn file_at<'a>(
    names: &'a [Text],
    contents: &'a [Bytes],
    number: u32,
) -> Option<SourceFile<'a>>
    requires same { length names.now ≡ length contents.now }
    requires kinds { HaveKinds names.now }
    ensures file { option_map source_in result ≡ slice_get (sources names.now contents.now) number }
    ensures kind { IfSome result (λ f. (kind : Kind) × IsOf kind (source_in f)) }
{
    let Some(name) = names.get(number as usize) else {
        return None;
    };
    let Some(bytes) = contents.get(number as usize) else {
        return None;
    };
    Some(SourceFile {
        number,
        name,
        bytes: bytes.as_slice(),
    })
}

/// The part that a file spells; none where its reader refuses it.
///
/// # Errors
/// `Memory` only.
pub(crate) fn part_in(alloc: Global, file: SourceFile<'_>) -> Result<Option<Part>, Memory>
    requires { (kind : Kind) × IsOf kind (source_in file) }
    ensures { IfOk result (λ o. IsPartOf (source_in file.entry) (option_map part_of o)) }
{
    match read_part(alloc, file.number, file.name, file.bytes) {
        Ok(part) => Ok(Some(part)),
        Err(Stop::Refused(_refusal)) => Ok(None),
        Err(Stop::Memory) => Err(Memory),
    }
}
