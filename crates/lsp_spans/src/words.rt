//! How far a word goes.

ghost use Rattle.std.specs.Prelude.{◌≡◌, ◌<◌, ◌≤◌, IfSome, length};
ghost use Rattle.lsp_spans.specs.Words.{is_word_byte, is_line_end, is_blank, goes_on, front_len, word_len, dot_len, joint_len, path_len};

// Whether words have this byte.
fn is_word_byte(byte: u8) -> bool
    ensures { result ≡ is_word_byte byte }
{
    matches!(byte, b'a'..=b'z' | b'A'..=b'Z' | b'0'..=b'9' | b'_' | b'$')
}

// Whether a line ends with this byte.
fn is_line_end(byte: u8) -> bool
    ensures { result ≡ is_line_end byte }
{
    byte == b'\n' || byte == b'\r'
}

// Whether this byte may stand between the words of a path and their dots.
fn is_blank(byte: u8) -> bool
    ensures { result ≡ is_blank byte }
{
    byte == b' ' || byte == b'\t' || is_line_end(byte)
}

// Whether this is a byte of a character behind its first.
fn goes_on(byte: u8) -> bool
    ensures { result ≡ goes_on byte }
{
    matches!(byte, 128..=191)
}

// How many bytes of words stand in front.
fn word_run(bytes: &[u8]) -> usize
    ensures value { result ≡ front_len is_word_byte bytes.now }
    ensures within { result ≤ length bytes.now }
{
    bytes.iter().take_while(|byte| is_word_byte(**byte)).count()
}

// How many blanks stand in front.
fn blank_run(bytes: &[u8]) -> usize
    ensures value { result ≡ front_len is_blank bytes.now }
    ensures within { result ≤ length bytes.now }
{
    bytes.iter().take_while(|byte| is_blank(**byte)).count()
}

// How many bytes stand in front by which a character goes on.
fn further_run(bytes: &[u8]) -> usize
    ensures value { result ≡ front_len goes_on bytes.now }
    ensures within { result ≤ length bytes.now }
{
    bytes.iter().take_while(|byte| goes_on(**byte)).count()
}

/// How many bytes the word has that stands in front. Where none does it is a character with all of its
/// bytes, and where the line or the text ends there none.
pub fn word_len(bytes: &[u8]) -> usize
    ensures value { result ≡ word_len bytes.now }
    ensures within { result ≤ length bytes.now }
{
    let Some((first, rest)) = bytes.split_first() else {
        return 0;
    };
    if is_line_end(*first) {
        return 0;
    }
    if is_word_byte(*first) {
        return word_run(bytes);
    }
    1 + further_run(rest)
}

// How many bytes a dot in front has with the blanks behind it, where a word follows.
fn dot_len(bytes: &[u8]) -> Option<usize>
    ensures value { result ≡ dot_len bytes.now }
    ensures within { IfSome result (λ n. (0 < n) × (n ≤ length bytes.now)) }
{
    let (first, rest) = bytes.split_first()?;
    if *first != b'.' {
        return None;
    }
    let blanks = blank_run(rest);
    match rest.get(blanks) {
        Some(byte) if is_word_byte(*byte) => Some(1 + blanks),
        _ => None,
    }
}

// How many bytes a dot has with the blanks around it, where it stands in front and a word follows.
fn joint_len(bytes: &[u8]) -> Option<usize>
    ensures value { result ≡ joint_len bytes.now }
    ensures within { IfSome result (λ n. (0 < n) × (n ≤ length bytes.now)) }
{
    let blanks = blank_run(bytes);
    match dot_len(&bytes[blanks..]) {
        Some(len) => Some(blanks + len),
        None => None,
    }
}

/// How many bytes the words have that stand in front with dots between them, as a variable and a
/// method of it do. Blanks and ends of lines may stand around the dots.
pub fn path_len(bytes: &[u8]) -> usize
    ensures value { result ≡ path_len bytes.now }
    ensures within { result ≤ length bytes.now }
{
    let mut len = word_run(bytes);
    if len == 0 {
        return 0;
    }
    'joints: while let Some(joint) = joint_len(&bytes[len..]) {
        len += joint;
        len += word_run(&bytes[len..]);
    }
    len
}
