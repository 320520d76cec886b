//! Names of documents: their folders, and whether they name sources.

ghost use Rattle.std.specs.Prelude.{◌≡◌};
ghost use Rattle.std.specs.Str.{bytes_eq};
ghost use Rattle.percent_encoding.specs.Percent.{percent_decode};
ghost use Rattle.lsp_folder.specs.Names.{folder_of, is_source, is_hidden, is_part, plain};

use lsp_names::file_path;
use memchr::memrchr;
use percent_encoding::percent_decode;

// The folder of a name: up to its last slash, and with it.
fn folder_of(name: &[u8]) -> &[u8]
    ensures { result.now ≡ folder_of name.now }
{
    match memrchr(b'/', name) {
        Some(at) => &name[..at + 1],
        None => &name[..0],
    }
}

// Whether a name is that of a source.
fn is_source(name: &[u8]) -> bool
    ensures { result ≡ is_source name.now }
{
    name.ends_with(b".scr") || name.ends_with(b".protocol") || name.ends_with(b".java")
}

// Whether a name begins with a dot within its folder.
fn is_hidden(name: &[u8]) -> bool
    ensures { result ≡ is_hidden name.now }
{
    match name.get(folder_of(name).len()) {
        Some(byte) => *byte == b'.',
        None => false,
    }
}

/// What a name names: the path of a file of this machine, and each other name itself. Its escapes are left.
pub(crate) fn named_part(name: &[u8]) -> &[u8]
    ensures { percent_decode result.now ≡ plain name.now }
{
    match file_path(name) {
        Some(path) => path,
        None => name,
    }
}

// Whether two texts are the same, once their escapes are read.
fn read_alike(text: &[u8], other: &[u8]) -> bool
    ensures { result ≡ bytes_eq (percent_decode text.now) (percent_decode other.now) }
{
    let mut left = percent_decode(text);
    let mut right = percent_decode(other);
    'bytes: while let Some(byte) = left.next() {
        if right.next() != Some(byte) {
            return false;
        }
    }
    right.next().is_none()
}

/// Whether a name is that of a source in the folder of a document, however the folder is written. Files whose names begin with a dot
/// are none, since editors keep their own so beside a file.
pub fn is_part(document: &str, name: &str) -> bool
    ensures { result ≡ is_part document.now name.now }
{
    let bytes = name.as_bytes();
    let folder = named_part(folder_of(bytes));
    if read_alike(folder, named_part(folder_of(document.as_bytes()))) {
        return !is_hidden(bytes) && is_source(bytes);
    }
    false
}
