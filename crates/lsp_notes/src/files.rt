//! The diagnostics of all files.

ghost use Rattle.std.specs.Prelude.{◌≡◌, List, length, map, IfOk};
ghost use Rattle.mg_refusal.specs.Refusals.{Refusal as Refused};
ghost use Rattle.lsp_notes.specs.Told.{AreTold};
ghost use Rattle.lsp_notes.specs.inner.Groups.{groups_of};

use crate::homes::groups_of;
use crate::notes::notes_of;
use lsp_messages::Diagnostic;
use lsp_text::Encoding;
use mg_refusal::Refusal;
use mg_text::{Bytes, Memory};
use std::alloc::Global;

// The diagnostics of refusals by the files in which they are told.
fn each_of(
    alloc: Global,
    groups: &[Vec<Refusal>],
    contents: &[Bytes],
    encoding: Encoding,
) -> Result<Vec<Vec<Diagnostic>>, Memory>
    requires { length groups.now ≡ length contents.now }
    ensures { IfOk result (λ v. (rs : List Refused) → map (λ g. g.items) groups.now ≡ groups_of (length contents.now) rs →
        AreTold encoding rs contents.now v.items) }
{
    let mut lists = Vec::with_capacity(alloc, contents.len())?;
    for (file, bytes) in contents.iter().enumerate() {
        let list = notes_of(
            alloc,
            bytes.as_slice(),
            groups[file].as_slice(),
            contents.len(),
            encoding,
        )?;
        lists.push(list)?;
    }
    Ok(lists)
}

/// The diagnostics of refusals, one list for each file: each refusal is told in the file where it stands, and in
/// the first one where it stands in none. Each file is walked a few times, however many refusals it has.
///
/// # Errors
/// `Memory` only.
pub fn told_by_file(
    alloc: Global,
    refusals: Vec<Refusal>,
    contents: &[Bytes],
    encoding: Encoding,
) -> Result<Vec<Vec<Diagnostic>>, Memory>
    ensures { IfOk result (λ v. AreTold encoding refusals.items contents.now v.items) }
{
    let groups = groups_of(alloc, refusals, contents.len())?;
    each_of(alloc, groups.as_slice(), contents, encoding)
}
