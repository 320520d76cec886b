//! What one line of a file of calls says.

ghost use Rattle.std.specs.Prelude.{◌≡◌, ◌≤◌, ◌↔◌, IsTrue, length};
ghost use Rattle.mg_read.specs.Passes.{AllPasses, StartsWith, span};
ghost use Rattle.mg_read.specs.Letters.{is_name_byte};
ghost use Rattle.mg_calls.specs.Calls.{IsWord};
ghost use Rattle.mg_calls.specs.Answer.{IsSaid};

/// What a line says.
#[derive(Clone, Copy)]
pub enum Said<'a> {
    /// Nothing: it is empty, or a comment.
    Nothing,
    /// A call of this method, which answers with this label, where there is one.
    Call(&'a str, Option<&'a str>),
    /// It is none of these.
    Bad,
}

/// Tells what a line says.
pub fn read_line(line: &[u8]) -> Said<'_>
    ensures { IsSaid line.now result }
{
    match line.split_first() {
        None => Said::Nothing,
        Some((first, _)) => {
            if *first == b'#' {
                Said::Nothing
            } else if is_name_byte(*first) {
                read_call(line)
            } else {
                Said::Bad
            }
        }
    }
}

// The same of a line that begins with a method.
fn read_call(line: &[u8]) -> Said<'_>
    requires { StartsWith is_name_byte line.now }
    ensures { IsSaid line.now result }
{
    let end = word_end(line);
    let method = word(&line[..end]);
    if end == line.len() {
        return Said::Call(method, None);
    }
    if line[end] != b' ' {
        return Said::Bad;
    }
    let label = &line[end + 1..];
    if !is_word(label) {
        return Said::Bad;
    }
    Said::Call(method, Some(word(label)))
}

// Whether the bytes are one or more letters, digits or "_".
fn is_word(bytes: &[u8]) -> bool
    ensures { IsTrue result ↔ IsWord bytes.now }
{
    !bytes.is_empty() && word_end(bytes) == bytes.len()
}

// How many bytes at the front are letters, digits or "_".
fn word_end(bytes: &[u8]) -> usize
    ensures value { result ≡ span is_name_byte bytes.now }
    ensures bound { result ≤ length bytes.now }
{
    bytes.iter().take_while(|byte| is_name_byte(**byte)).count()
}

fn is_name_byte(byte: u8) -> bool
    ensures { result ≡ is_name_byte byte }
{
    byte.is_ascii_alphabetic() || byte == b'_' || byte.is_ascii_digit()
}

// The text of a word.
fn word(bytes: &[u8]) -> &str
    requires { AllPasses is_name_byte bytes.now }
    ensures { result.now ≡ bytes.now }
{
    std::str::from_utf8(bytes).unwrap()
}
