//! The files of a program with another text in place of a document, and where in it a variable is named.

ghost use Rattle.std.specs.Prelude.{◌≡◌, ◌++◌, ◌≤◌, ◌<◌, length, IfOk, OnOk};
ghost use Rattle.lsp_offers.specs.Documents.{with_document, place_of};

use crate::spots::Spot;
use mg_text::{Bytes, Memory, Place};
use std::alloc::Global;

// Appends copies of contents.
fn put_copies(alloc: Global, out: &mut Vec<Bytes>, contents: &[Bytes]) -> Result<(), Memory>
    ensures { OnOk result (out.new.items ≡ out.old.items ++ contents.now) }
{
    for bytes in contents {
        let copy = Bytes::of(alloc, bytes.as_slice())?;
        out.push(copy)?;
    }
    Ok(())
}

/// The contents of files, with this text as that of the file of a number.
///
/// # Errors
/// `Memory` only.
pub(crate) fn with_document(
    alloc: Global,
    contents: &[Bytes],
    file: u32,
    text: &[u8],
) -> Result<Vec<Bytes>, Memory>
    requires { file < length contents.now }
    ensures { IfOk result (λ v. v.items ≡ with_document contents.now file text.now) }
{
    let number = file as usize;
    let mut out = Vec::new(alloc);
    put_copies(alloc, &mut out, &contents[..number])?;
    let bytes = Bytes::of(alloc, text)?;
    out.push(bytes)?;
    put_copies(alloc, &mut out, &contents[number + 1..])?;
    Ok(out)
}

/// The place at which the path of a spot begins.
///
/// # Errors
/// `Memory` where so many bytes stand before it that places can't count them: four gigabytes.
pub(crate) fn place_of(file: u32, text: &[u8], spot: Spot) -> Result<Place, Memory>
    requires { spot.start ≤ length text.now }
    ensures { IfOk result (λ p. p ≡ place_of file text.now spot) }
{
    let before = &text[..spot.start];
    if before.len() >= 4294967290 {
        return Err(Memory);
    }
    Ok(Place::start(file).after(before))
}
