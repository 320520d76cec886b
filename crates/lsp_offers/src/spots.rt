//! Where a method of a variable is being typed.

ghost use Rattle.std.specs.Prelude.{◌≡◌, ◌≤◌, ◌<◌, IfSome, false, length};
ghost use Rattle.lsp_spans.specs.Words.{is_run_byte, is_word_byte, run_len};
ghost use Rattle.lsp_offers.specs.Spots.{begins_name, begin_of, is_spot, spot_before, spot_at};

/// Where a method is being typed: where the path of its variable begins, and where the dot behind it stands.
#[derive(Clone, Copy, PartialEq, Eq)]
pub struct Spot {
    /// Where the path begins.
    pub start: usize,
    /// Where the dot stands.
    pub dot: usize,
}

// Whether words have this byte.
fn is_word_byte(byte: u8) -> bool
    ensures { result ≡ is_word_byte byte }
{
    matches!(byte, b'a'..=b'z' | b'A'..=b'Z' | b'0'..=b'9' | b'_' | b'$')
}

// Whether names begin with this byte.
fn begins_name(byte: u8) -> bool
    ensures { result ≡ begins_name byte }
{
    matches!(byte, b'a'..=b'z' | b'A'..=b'Z' | b'_' | b'$')
}

// How many bytes of words stand in front.
pub(crate) fn word_len(bytes: &[u8]) -> usize
    ensures value { result ≡ run_len false bytes.now }
    ensures within { result ≤ length bytes.now }
{
    let mut count = 0;
    for byte in bytes {
        if !is_word_byte(*byte) {
            return count;
        }
        count += 1;
    }
    count
}

// Whether runs of words have this byte, or of words and dots where they count too.
fn is_run_byte(dots: bool, byte: u8) -> bool
    ensures { result ≡ is_run_byte dots byte }
{
    is_word_byte(byte) || dots && byte == b'.'
}

// Where the run begins that ends at an offset.
fn begin_of(text: &[u8], offset: usize, dots: bool) -> usize
    requires { offset ≤ length text.now }
    ensures value { result ≡ begin_of dots text.now offset }
    ensures within { result ≤ offset }
{
    for passed in 0..offset {
        if !is_run_byte(dots, text[offset - passed - 1]) {
            return offset - passed;
        }
    }
    0
}

// Whether a dot stands here, and where its path begins, a name may begin.
fn is_spot(text: &[u8], dot: usize, start: usize) -> bool
    requires dot { dot < length text.now }
    requires start { start < length text.now }
    ensures { result ≡ is_spot text.now dot start }
{
    text[dot] == b'.' && begins_name(text[start])
}

// The spot whose dot stands at this offset.
fn spot_before(text: &[u8], dot: usize) -> Option<Spot>
    requires { dot < length text.now }
    ensures value { result ≡ spot_before text.now dot }
    ensures within { IfSome result (λ s. s.start ≤ s.dot) }
    ensures dot { IfSome result (λ s. s.dot ≡ dot) }
{
    let start = begin_of(text, dot, true);
    if is_spot(text, dot, start) {
        return Some(Spot { start, dot });
    }
    None
}

/// The spot at which a method is being typed before this offset, if it is one.
pub(crate) fn spot_at(text: &[u8], offset: usize) -> Option<Spot>
    requires { offset ≤ length text.now }
    ensures value { result ≡ spot_at text.now offset }
    ensures within { IfSome result (λ s. s.start ≤ s.dot) }
    ensures dot { IfSome result (λ s. s.dot < offset) }
{
    let begin = begin_of(text, offset, false);
    if begin == 0 {
        return None;
    }
    spot_before(text, begin - 1)
}
