//! Laws of messages that are read. Each function carries one, and does nothing.

ghost use Rattle.lsp_json.specs.examples.Rows.{Rows};

/// The worked rows hold.
pub fn rows_hold()
    ensures { Rows }
{}
