//! Laws of messages that are written. Each function carries one, and does nothing.

ghost use Rattle.lsp_says.specs.examples.Rows.{Rows};

/// The worked rows hold.
pub fn rows_hold()
    ensures { Rows }
{}
