//! The encodings in which a client counts the characters of a line, and what a character counts in each.

/// In what a client counts the characters of a line: the protocol's `PositionEncodingKind`.
#[derive(Clone, Copy, PartialEq, Eq)]
pub enum Encoding {
    /// Bytes of UTF-8.
    Utf8,
    /// Code units of UTF-16, which every client knows.
    Utf16,
}

impl Encoding {
    ghost use Rattle.std.specs.Prelude.{◌≡◌, ◌≤◌, length};
    ghost use Rattle.std.specs.Char.{encode_utf8};
    ghost use Rattle.lsp_text.specs.Units.{unit_count};

    // What a character counts.
    pub(crate) fn units(self, character: char) -> usize
        ensures value { result ≡ unit_count self character }
        ensures bound { result ≤ length (encode_utf8 character) }
    {
        match self {
            Encoding::Utf8 => character.len_utf8(),
            Encoding::Utf16 => character.len_utf16(),
        }
    }
}
