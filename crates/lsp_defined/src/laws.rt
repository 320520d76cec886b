//! Laws of what is defined and shown. Each function carries one, and does nothing.

ghost use Rattle.lsp_defined.specs.Laws.{EachCallStands};
ghost use Rattle.lsp_defined.specs.examples.Rows.{Rows};

/// The calls for which a protocol's text has places are those of the class that is made of it.
pub fn each_call_stands()
    ensures { EachCallStands }
{}

/// The worked rows hold.
pub fn rows_hold()
    ensures { Rows }
{}
