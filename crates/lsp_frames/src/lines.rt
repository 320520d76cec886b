//! The lines of a head, and what each says.

ghost use Rattle.std.specs.Prelude.{◌≡◌, ◌<◌, ◌≤◌, ◌^◌, ◌*◌, ◌↔◌, ℕ, length, MatchOption, IsTrue};
ghost use Rattle.std.specs.Str.Parse.{IsNumeral, digits_value};
ghost use Rattle.lsp_frames.specs.Fields.{IsLengthName, Numbers, IsSaid};
ghost use Rattle.lsp_frames.specs.Reading.{IsCut};
ghost use Rattle.lsp_frames.specs.inner.Walk.{cut_of, fits_in};

use memchr::memchr;

// How the bytes behind the lines that are passed begin.
pub(crate) enum Cut {
    // With what may become a line.
    Wants,
    // With more than there is room for.
    Over,
    // With a line that ends in no carriage return before its line feed.
    Bare,
    // With a line of so many bytes, and its end.
    Line(usize),
}

// What a line says.
pub(crate) enum Said {
    // Nothing: it is empty.
    Empty,
    // Nothing: it has no colon.
    NoColon,
    // Something else than a length.
    Other,
    // A length that is no number within the limit.
    BadLength,
    // A length.
    Long(usize),
}

// How bytes begin, where a line may have so many with its end.
pub(crate) fn begin(bytes: &[u8], room: usize) -> Cut
    ensures value { IsCut room bytes.now (cut_of bytes.now result) }
    ensures fits { fits_in (length bytes.now) room result }
{
    let at = match memchr(b'\n', &bytes[..bytes.len().min(room)]) {
        None if bytes.len() < room => return Cut::Wants,
        None => return Cut::Over,
        Some(0) => return Cut::Bare,
        Some(at) => at,
    };
    if bytes[at - 1] == b'\r' {
        Cut::Line(at - 1)
    } else {
        Cut::Bare
    }
}

// The number that digits write. None where there are none, where one is no digit, and where the number is above
// the limit.
fn number_in(digits: &[u8], limit: u32) -> Option<usize>
    ensures { MatchOption result (IsNumeral 10 digits.now → limit < digits_value 10 digits.now)
        (λ n. IsNumeral 10 digits.now × (n ≡ digits_value 10 digits.now) × (n ≤ limit)) }
{
    let most = limit as usize;
    let mut number = 0;
    for &digit in digits {
        if !digit.is_ascii_digit() {
            return None;
        }
        number = number * 10 + (digit - b'0') as usize;
        if number > most {
            return None;
        }
    }
    if digits.is_empty() {
        None
    } else {
        Some(number)
    }
}

// The number that a value writes.
fn length_in(value: &[u8], limit: u32) -> Option<usize>
    ensures { MatchOption result ((n : ℕ) → ¬ Numbers limit value.now n) (λ n. Numbers limit value.now n) }
{
    number_in(value.trim_ascii(), limit)
}

// Whether this is the name of the field that tells the length.
fn is_length_name(name: &[u8]) -> bool
    ensures { IsTrue result ↔ IsLengthName name.now }
{
    name.eq_ignore_ascii_case("content-length".as_bytes())
}

// What a line says.
pub(crate) fn say(line: &[u8], limit: u32) -> Said
    ensures { IsSaid limit line.now result }
{
    let colon = match memchr(b':', line) {
        None if line.is_empty() => return Said::Empty,
        None => return Said::NoColon,
        Some(colon) => colon,
    };
    if !is_length_name(&line[..colon]) {
        return Said::Other;
    }
    match length_in(&line[colon + 1..], limit) {
        Some(length) => Said::Long(length),
        None => Said::BadLength,
    }
}
