//! What a line of a case spells: itself, but for what its backslashes begin.
//! What adds to the bytes answers `None` or false where the form is wrong.

use std::alloc::{AllocError, Global};

/// Bytes that lines spell.
#[derive(Drop)]
pub struct Spelled {
    pub bytes: Vec<u8>,
    /// Whether memory ever lacked for what was to be added.
    failed: bool,
}

impl Spelled {
    /// No bytes.
    pub fn new(alloc: Global) -> Spelled {
        Spelled {
            bytes: Vec::new(alloc),
            failed: false,
        }
    }

    /// Adds bytes as they are.
    pub fn add(&mut self, bytes: &[u8]) {
        if self.bytes.extend_from_slice(bytes).is_err() {
            self.failed = true;
        }
    }

    /// Adds what a line spells, and answers whether it is in form.
    ///
    /// # Errors
    /// Memory ever lacked.
    pub fn spell(&mut self, line: &str) -> Result<bool, AllocError> {
        let is_formed = self.add_line(line);
        if self.failed {
            return Err(AllocError);
        }
        Ok(is_formed)
    }

    fn add_line(&mut self, line: &str) -> bool {
        let mut rest = line;
        for _ in 0..line.len() {
            let Some((front, behind)) = rest.split_once('\\') else {
                break;
            };
            self.add(front.as_bytes());
            rest = match self.add_escape(behind) {
                Some(rest) => rest,
                None => return false,
            };
        }
        self.add(rest.as_bytes());
        true
    }

    // Adds what stands behind a backslash, and answers the rest of the line.
    fn add_escape<'a>(&mut self, text: &'a str) -> Option<&'a str> {
        match repeated_part(text) {
            Some((part, rest)) => self.add_repeated(part).then_some(rest),
            None => self.add_byte(text),
        }
    }

    fn add_repeated(&mut self, repeated: Repeated<'_>) -> bool {
        for number in 0..repeated.count {
            let is_formed = if repeated.is_numbered {
                self.add_numbered(repeated.part, number)
            } else {
                self.add_part(repeated.part)
            };
            if !is_formed {
                return false;
            }
        }
        true
    }

    // Adds a part with a number in the place of each `@`.
    fn add_numbered(&mut self, part: &str, number: u32) -> bool {
        let Ok(number) = number.to_string(*self.bytes.allocator()) else {
            self.failed = true;
            return true;
        };
        for (place, piece) in part.split('@').enumerate() {
            if place > 0 {
                self.add(number.as_bytes());
            }
            if !self.add_part(piece) {
                return false;
            }
        }
        true
    }

    // Adds a part, in which nothing is repeated.
    fn add_part(&mut self, part: &str) -> bool {
        let mut rest = part;
        for _ in 0..part.len() {
            let Some((front, behind)) = rest.split_once('\\') else {
                break;
            };
            self.add(front.as_bytes());
            rest = match self.add_byte(behind) {
                Some(rest) => rest,
                None => return false,
            };
        }
        self.add(rest.as_bytes());
        true
    }

    // Adds the one byte or none that stands behind a backslash, and answers the rest of the line.
    fn add_byte<'a>(&mut self, text: &'a str) -> Option<&'a str> {
        for (sign, spelled) in ESCAPES {
            if let Some(rest) = text.strip_prefix(sign) {
                self.add(spelled);
                return Some(rest);
            }
        }
        let (byte, rest) = hexadecimal(text)?;
        self.add(&[byte]);
        Some(rest)
    }
}

/// A part that stands so many times, with the number of each time in it or not.
#[derive(Clone, Copy)]
struct Repeated<'a> {
    part: &'a str,
    count: u32,
    is_numbered: bool,
}

// The repeated part that begins here, and what stands behind it.
fn repeated_part(text: &str) -> Option<(Repeated<'_>, &str)> {
    let (is_numbered, text) = match text.strip_prefix("@[") {
        Some(text) => (true, text),
        None => (false, text.strip_prefix('[')?),
    };
    let (text, rest) = text.split_once(']')?;
    let (part, count) = text.rsplit_once('*')?;
    let repeated = Repeated {
        part,
        count: count.parse().ok()?,
        is_numbered,
    };
    Some((repeated, rest))
}

const ESCAPES: [(char, &[u8]); 6] = [
    ('\\', b"\\"),
    ('n', b"\n"),
    ('r', b"\r"),
    ('t', b"\t"),
    ('0', b"\0"),
    ('-', b""),
];

// The byte of the two digits behind an `x`, and what stands behind them.
fn hexadecimal(text: &str) -> Option<(u8, &str)> {
    let (digits, rest) = text.strip_prefix('x')?.split_at_checked(2)?;
    let byte = u8::from_str_radix(digits, 16).ok()?;
    Some((byte, rest))
}
