//! The files of folders.

ghost use Rattle.std.specs.Prelude.{◌≡◌, ℕ, List, Option, IfOk};
ghost use Rattle.lsp_folder.specs.declared.program.File.{File as Kept};
ghost use Rattle.lsp_server.specs.Turns.{Folders as Known, AreFiles};

use lsp_folder::File;
use mg_text::Memory;
use std::alloc::Global;

/// Who reads the files of folders.
pub trait Folders {
    /// The files of the folder of each document, where they are known.
    ghost known: { Self → Known };

    /// The files of the folder of a document, with their names as those of documents. What can't be read is no file.
    ///
    /// # Errors
    /// `Memory` only.
    fn files_of(&mut self, alloc: Global, document: &str) -> Result<Vec<File>, Memory>
        ensures files { IfOk result (λ v. AreFiles (known self.old) document.now v.items) }
        ensures known { known self.new ≡ known self.old };
}
