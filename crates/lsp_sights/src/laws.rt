//! Laws of what is said. Each function carries one, and does nothing.

ghost use Rattle.lsp_sights.specs.Laws.{HoverIsShown};
ghost use Rattle.lsp_sights.specs.examples.Rows.{Rows};

/// What is said over a call begins with what `show` has of it behind its place.
pub fn hover_is_shown()
    ensures { HoverIsShown }
{}

/// The worked rows hold.
pub fn rows_hold()
    ensures { Rows }
{}
