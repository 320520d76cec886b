//! Words of a document, as ranges of it.

ghost use Rattle.std.specs.Prelude.{◌≡◌, IfOk, map};
ghost use Rattle.lsp_defined.specs.Locations.{AreLocationsOf, AreLocated};
ghost use Rattle.lsp_defined.specs.inner.Located.{location};

use lsp_messages::Location;
use lsp_spans::ranges_of;
use lsp_text::{Encoding, Range};
use mg_text::{Memory, Place, Text};
use std::alloc::Global;
use std::str;

// Ranges of a document.
fn with_name(alloc: Global, document: &Text, ranges: &[Range]) -> Result<Vec<Location>, Memory>
    ensures { IfOk result (λ v. v.items ≡ map (location document.now) ranges.now) }
{
    let mut locations = Vec::with_capacity(alloc, ranges.len())?;
    for range in ranges {
        let document = document.copy()?;
        locations.push(Location {
            document,
            range: *range,
        })?;
    }
    Ok(locations)
}

// The words at places of a document of this text.
fn located(
    alloc: Global,
    document: &Text,
    text: &str,
    places: &[Place],
    encoding: Encoding,
) -> Result<Vec<Location>, Memory>
    ensures { IfOk result (λ v. AreLocationsOf encoding document.now text.now places.now v.items) }
{
    let ranges = ranges_of(alloc, text, places, encoding)?;
    with_name(alloc, document, ranges.as_slice())
}

/// The words at places of a document of these bytes. Bytes that are no text have none.
///
/// # Errors
/// `Memory` only.
pub(crate) fn locations_in(
    alloc: Global,
    document: &Text,
    bytes: &[u8],
    places: &[Place],
    encoding: Encoding,
) -> Result<Vec<Location>, Memory>
    ensures { IfOk result (λ v. AreLocated encoding document.now bytes.now places.now v.items) }
{
    match str::from_utf8(bytes) {
        Ok(text) => located(alloc, document, text, places, encoding),
        Err(_error) => Ok(Vec::new(alloc)),
    }
}
