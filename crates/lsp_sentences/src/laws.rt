//! Laws of what is shown. Each function carries one, and does nothing.

ghost use Rattle.lsp_sentences.specs.examples.Rows.{Rows};

/// The worked rows hold.
pub fn rows_hold()
    ensures { Rows }
{}
