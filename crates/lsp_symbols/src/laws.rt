//! Laws of what is declared. Each function carries one, and does nothing.

ghost use Rattle.lsp_symbols.specs.examples.Rows.{Rows};

/// The worked rows hold.
pub fn rows_hold()
    ensures { Rows }
{}
