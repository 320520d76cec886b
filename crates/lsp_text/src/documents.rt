//! The documents that stand open in an editor, by their names.

use crate::changes::{Change, apply_all};
use crate::encoding::Encoding;
use mg_text::Memory;
use std::alloc::Global;
use std::collections::{BTreeMap, btree_map};

/// A document as it stands in the editor.
#[derive(Drop)]
pub struct Document {
    /// Its version: the number that the editor told last.
    pub version: i64,
    /// Its text.
    pub text: String,
}

/// The documents that are open, each once, in the order of their names' bytes.
#[derive(Drop)]
pub struct Documents {
    by_name: BTreeMap<String, Document>,
}

/// Why a change isn't made.
#[derive(Clone, Copy, PartialEq, Eq)]
pub enum ChangeFault {
    /// No document of this name is open. Nothing has changed.
    NotOpen,
    /// Want of memory. The document may have some of the changes.
    Memory,
}

impl From<Memory> for ChangeFault {
    ghost use Rattle.std.specs.Prelude.{◌≡◌};
    ghost use Rattle.lsp_text.specs.declared.documents.ChangeFault.TheVariants.{Memory as Want};

    ghost from_gives = { λ _ e. e ≡ Want };

    fn from(_error: Memory) -> ChangeFault {
        ChangeFault::Memory
    }
}

impl Documents {
    ghost use Rattle.std.specs.Prelude.{◌≡◌, ℕ, List, None, Some, Err, OnOk, IfErr, string_bytes, is_some};
    ghost use Rattle.std.specs.Option.{option_map};
    ghost use Rattle.lsp_text.specs.declared.documents.ChangeFault.TheVariants.{NotOpen};
    ghost use Rattle.lsp_text.specs.Documents.{shown, entries, document_at, Puts, Changes, KeepsOthers};
    ghost use Rattle.std.specs.BTreeMap.{IsOrdered};
    ghost use Rattle.std.specs.String.{string_cmp};

    /// No documents. Nothing is allocated before the first is opened.
    pub fn new(alloc: Global) -> Documents
        ensures { (name : List ℕ) → document_at result name ≡ None }
    {
        Documents {
            by_name: BTreeMap::new(alloc),
        }
    }

    /// The document of a name. None comes exactly where none is open.
    pub fn get(&self, name: &str) -> Option<&Document>
        ensures { option_map (λ d. shown d.now) result ≡ document_at self.now name.now }
    {
        self.by_name.get(name)
    }

    /// The documents with their names, in the order of the names' bytes.
    pub fn iter(&self) -> btree_map::Iter<'_, String, Document>
        ensures entries { result ≡ entries self.now }
        ensures ordered { IsOrdered string_cmp self.now.by_name }
    {
        self.by_name.iter()
    }

    /// Opens a document: from then on this text and version stand at its name.
    ///
    /// # Errors
    /// `Memory` only.
    pub fn open(&mut self, name: String, version: i64, text: String) -> Result<(), Memory>
        ensures { OnOk result
            (Puts self.old self.new (string_bytes name) (Some (record { version = version; text = string_bytes text }))) }
    {
        self.by_name.insert(name, Document { version, text })?;
        Ok(())
    }

    /// Closes a document, and says whether it was open: from then on nothing stands at its name.
    pub fn close(&mut self, name: &str) -> bool
        ensures put { Puts self.old self.new name.now None }
        ensures told { result ≡ is_some (document_at self.old name.now) }
    {
        self.by_name.remove(name).is_some()
    }

    /// Makes changes in a document, one after the other, and gives it a version.
    ///
    /// # Errors
    /// `NotOpen` exactly where no document of this name is open; nothing has changed then. `Memory`,
    /// where memory is wanted; some of the changes may then be made. The other documents stay in any case.
    pub fn change(
        &mut self,
        name: &str,
        version: i64,
        changes: &[Change],
        encoding: Encoding,
    ) -> Result<(), ChangeFault>
        ensures ok { OnOk result (Changes encoding self.old self.new name.now version changes.now) }
        ensures not_open { IfErr result (λ e. e ≡ NotOpen → (document_at self.old name.now ≡ None) × (self.new ≡ self.old)) }
        ensures open { document_at self.old name.now ≡ None → result ≡ Err NotOpen }
        ensures others { KeepsOthers self.old self.new name.now }
    {
        match self.by_name.get_mut(name) {
            Some(document) => {
                apply_all(&mut document.text, changes, encoding)?;
                document.version = version;
                Ok(())
            }
            None => Err(ChangeFault::NotOpen),
        }
    }
}
