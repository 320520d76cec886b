//! Names of documents and paths of files: a document goes by its URI, and a file by its path.
#![tactic(auto)]

ghost use Rattle.lsp_names.specs.examples.Rows.{Rows};

mod naming;

pub use naming::{Named, beside, file_path, path_of};

/// The worked rows hold.
pub fn rows_hold()
    ensures { Rows }
{}
