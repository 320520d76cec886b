//! Names of documents, and what each says of a file.

ghost use Rattle.std.specs.Prelude.{◌≡◌, ◌++◌, IfOk, option_map};
ghost use Rattle.lsp_names.specs.Names.{IsNamed, escaped, escaped_path, file_path, rooted};

use mg_text::{Memory, Text};
use percent_encoding::{
    AsciiSet, DecodeError, NON_ALPHANUMERIC, ascii_set, percent_decode, utf8_percent_encode,
};
use std::alloc::Global;

/// What the name of a document says of a file.
#[derive(Drop)]
pub enum Named {
    /// A file of this machine, by its path, which begins with a slash.
    Path(Text),
    /// No file: the scheme is another than `file`, as `untitled`.
    NoFile,
    /// A file of another machine, or one whose path isn't told from the root on.
    Elsewhere,
    /// A file whose path is no text: its escapes give no UTF-8.
    NoText,
}

// What doesn't stand for itself in a name: all but letters, digits and four marks.
const ESCAPED: AsciiSet = ascii_set!(
    NON_ALPHANUMERIC
        .remove(b'-')
        .remove(b'.')
        .remove(b'_')
        .remove(b'~')
);

// The path that stands there from the root on.
fn rooted(path: &[u8]) -> Option<&[u8]>
    ensures { option_map (λ p. p.now) result ≡ rooted path.now }
{
    if path.starts_with(b"/") {
        Some(path)
    } else {
        None
    }
}

// The path behind the scheme, as it is escaped, where it is one of this machine.
fn escaped_path(rest: &[u8]) -> Option<&[u8]>
    ensures { option_map (λ p. p.now) result ≡ escaped_path rest.now }
{
    let Some(behind) = rest.strip_prefix(b"//") else {
        return rooted(rest);
    };
    if behind.starts_with(b"localhost/") {
        return rooted(&behind[9..]);
    }
    rooted(behind)
}

/// The path of a name, as it is escaped, where it names a file of this machine.
pub fn file_path(name: &[u8]) -> Option<&[u8]>
    ensures { option_map (λ p. p.now) result ≡ file_path name.now }
{
    match name.strip_prefix(b"file:") {
        Some(rest) => escaped_path(rest),
        None => None,
    }
}

/// What the name of a document says of a file: `file:///p`, `file://localhost/p` and `file:/p` are the path `/p` of
/// this machine. Escapes in the path are read, and a letter with a colon behind the first slash is a part of the path
/// as any other.
///
/// # Errors
/// `Memory` only.
pub fn path_of(alloc: Global, name: &str) -> Result<Named, Memory>
    ensures { IfOk result (IsNamed name.now) }
{
    let Some(rest) = name.as_bytes().strip_prefix(b"file:") else {
        return Ok(Named::NoFile);
    };
    let Some(path) = escaped_path(rest) else {
        return Ok(Named::Elsewhere);
    };
    match percent_decode(path).decode_utf8(alloc) {
        Ok(path) => Ok(Named::Path(Text::of(alloc, path.as_str())?)),
        Err(DecodeError::OutOfMemory) => Err(Memory),
        Err(DecodeError::Utf8(_)) => Ok(Named::NoText),
    }
}

/// The name of a document that is a file of a folder, by the folder's name with its slash, and the file's.
///
/// # Errors
/// `Memory` only.
#[tactic(auto, using(crate::proofs::Escapes::escapes))]
pub fn beside(alloc: Global, folder: &str, file: &str) -> Result<Text, Memory>
    ensures { IfOk result (λ t. t ≡ folder.now ++ escaped file.now) }
{
    let mut name = String::from_str(alloc, folder)?;
    utf8_percent_encode(file, ESCAPED).append_to(&mut name)?;
    Ok(Text::from_string(name))
}
