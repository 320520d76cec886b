//! The lines of a text: each ends with a line feed, a carriage return, or both in this order.

ghost use Rattle.std.specs.Prelude.{◌≡◌, ◌<◌, length, MatchOption, IfSome};
ghost use Rattle.std.specs.Str.{NonePass};
ghost use Rattle.lsp_text.specs.Lines.{is_line_end, IsFirstLine, IsLineOf};
ghost use Rattle.lsp_text.specs.inner.Fitting.{BeginsWithEnd, IsEndLength};

use memchr::memchr2;

// How many bytes the line end has that stands at the front.
fn end_len(bytes: &[u8]) -> usize
    requires { BeginsWithEnd bytes.now }
    ensures { IsEndLength bytes.now result }
{
    if bytes.len() > 1 && bytes[0] == b'\r' && bytes[1] == b'\n' {
        2
    } else {
        1
    }
}

// The first line and what stands behind its end. None where no line ends.
pub(crate) fn split_line(text: &str) -> Option<(&str, &str)>
    ensures line { MatchOption result (NonePass is_line_end text.now) (λ p. IsFirstLine text.now p.0.now p.1.now) }
    ensures shorter { IfSome result (λ p. length p.1.now < length text.now) }
{
    let at = match memchr2(b'\n', b'\r', text.as_bytes()) {
        Some(at) => at,
        None => return None,
    };
    let (line, end) = text.split_at(at);
    let (_, after) = end.split_at(end_len(end.as_bytes()));
    Some((line, after))
}

// The first line, without its end.
pub(crate) fn line_of(text: &str) -> &str
    ensures { IsLineOf text.now result.now }
{
    match split_line(text) {
        Some((line, _)) => line,
        None => text,
    }
}
