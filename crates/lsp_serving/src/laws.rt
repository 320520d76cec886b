//! Laws of serving. Each function carries one, and does nothing.

ghost use Rattle.lsp_serving.specs.Laws.{OneResponseEach};

/// Each request before `exit` gets one response, with its id, and nothing else is a response.
pub fn one_response_each()
    ensures { OneResponseEach }
{
    lsp_server::one_response_each();
}
