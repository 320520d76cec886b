//! Laws of sessions. Each function carries one, and does nothing.

ghost use Rattle.lsp_server.specs.Laws.{OneResponseEach, NothingStays};

/// Each request before `exit` gets one response, with its id, and nothing else is a response.
pub fn one_response_each()
    ensures { OneResponseEach }
{
    lsp_core::one_response_each();
}

/// What was told of a folder earlier doesn't stay: behind a judgement nothing shows there of what is no source any more, and
/// other folders show what they showed.
pub fn nothing_stays()
    ensures { NothingStays }
{}
