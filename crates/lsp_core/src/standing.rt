//! What notifications make of the documents.

ghost use Rattle.std.specs.Prelude.{◌≡◌, Some, OnOk};
ghost use Rattle.lsp_text.specs.Documents.{Puts};
ghost use Rattle.lsp_core.specs.Standing.{IsChange, AfterNotice};

use lsp_messages::Notice;
use lsp_text::{Change, ChangeFault, Documents, Encoding};
use mg_text::{Memory, Text};
use std::alloc::Global;

// Opens a document.
fn open(
    alloc: Global,
    documents: &mut Documents,
    name: &Text,
    version: i64,
    text: &Text,
) -> Result<(), Memory>
    ensures { OnOk result (Puts documents.old documents.new name.now (Some (record { version = version; text = text.now }))) }
{
    let name = String::from_str(alloc, name.as_str())?;
    let text = String::from_str(alloc, text.as_str())?;
    documents.open(name, version, text)
}

// Makes changes in a document, where it is open.
fn change(
    documents: &mut Documents,
    name: &Text,
    version: i64,
    changes: &[Change],
    encoding: Encoding,
) -> Result<(), Memory>
    ensures { OnOk result (IsChange encoding documents.old documents.new name.now version changes.now) }
{
    match documents.change(name.as_str(), version, changes, encoding) {
        Ok(()) => Ok(()),
        Err(ChangeFault::NotOpen) => Ok(()),
        Err(ChangeFault::Memory) => Err(Memory),
    }
}

/// Makes of the documents what a notification tells.
///
/// # Errors
/// `Memory` only. Of a document's changes some may then be made.
pub(crate) fn stand(
    alloc: Global,
    documents: &mut Documents,
    encoding: Encoding,
    notice: &Notice,
) -> Result<(), Memory>
    ensures { OnOk result (AfterNotice encoding notice.now documents.old documents.new) }
{
    match notice {
        Notice::Open {
            document,
            version,
            text,
        } => open(alloc, documents, document, *version, text),
        Notice::Change {
            document,
            version,
            changes,
        } => change(documents, document, *version, changes.as_slice(), encoding),
        Notice::Close(document) => {
            documents.close(document.as_str());
            Ok(())
        }
        _ => Ok(()),
    }
}
