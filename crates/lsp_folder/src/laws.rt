//! Laws of names and of programs. Each function carries one, and does nothing.

ghost use Rattle.lsp_folder.specs.examples.Rows.{Rows};

/// The worked rows hold.
pub fn rows_hold()
    ensures { Rows }
{}
