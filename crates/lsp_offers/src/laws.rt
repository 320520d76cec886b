//! Laws of what is offered. Each function carries one, and does nothing.

ghost use Rattle.lsp_offers.specs.examples.Rows.{Rows};

/// The worked rows hold.
pub fn rows_hold()
    ensures { Rows }
{}
