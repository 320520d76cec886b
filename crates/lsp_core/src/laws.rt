//! Laws of whole runs of messages. Each function carries one, and does nothing.

ghost use Rattle.lsp_core.specs.Runs.{OneResponseEach, NothingAfterExit, DocumentsAreOfNotices};
ghost use Rattle.lsp_core.specs.examples.Rows.{Rows};

/// Each request before `exit` gets one response, with its id, and nothing else gets one.
pub fn one_response_each()
    ensures { OneResponseEach }
{}

/// Behind `exit` nothing is told.
pub fn nothing_after_exit()
    ensures { NothingAfterExit }
{}

/// Which documents stand, and with which texts, depends on notifications alone.
pub fn documents_are_of_notices()
    ensures { DocumentsAreOfNotices }
{}

/// The worked rows hold.
pub fn rows_hold()
    ensures { Rows }
{}
