//! Where the calls of a file stand in its text.

ghost use Rattle.std.specs.Prelude.{◌≡◌, ◌≤◌, All, Option, IfOk, filter, length, map};
ghost use Rattle.lsp_sights.specs.Located.{is_in, begins_within, covers, AreLocated};
ghost use Rattle.lsp_sights.specs.inner.Zipped.{first, zipped};

use lsp_spans::path_len;
use lsp_text::offsets_of_places;
use mg_text::{Memory, Place};
use std::alloc::Global;
use use_sights::Site;

/// A call of a protocol method, and from where to where its path `x.m` stands in the text of its file.
#[derive(Clone, Copy)]
pub struct Located {
    /// The call.
    pub site: Site,
    /// The offset at which its path begins.
    pub start: usize,
    /// The offset behind its path.
    pub end: usize,
}

// Those of the calls that stand in this file.
fn in_file(alloc: Global, sites: &[Site], file: u32) -> Result<Vec<Site>, Memory>
    ensures { IfOk result (λ v. v.items ≡ filter (is_in file) sites.now) }
{
    let mut found = Vec::new(alloc);
    for site in sites {
        if site.place.file != file {
            continue;
        }
        found.push(*site)?;
    }
    Ok(found)
}

// Their places.
fn places_of(alloc: Global, sites: &[Site]) -> Result<Vec<Place>, Memory>
    ensures { IfOk result (λ v. v.items ≡ map (λ s. s.place) sites.now) }
{
    let mut places = Vec::with_capacity(alloc, sites.len())?;
    for site in sites {
        places.push(site.place)?;
    }
    Ok(places)
}

// Calls, with the offsets at which their paths begin in a text.
fn zipped(
    alloc: Global,
    text: &[u8],
    sites: &[Site],
    starts: &[usize],
) -> Result<Vec<Located>, Memory>
    requires same { length sites.now ≡ length starts.now }
    requires within { All (λ o. o ≤ length text.now) starts.now }
    ensures { IfOk result (λ v. v.items ≡ zipped text.now sites.now starts.now) }
{
    let mut calls = Vec::with_capacity(alloc, sites.len())?;
    for (number, site) in sites.iter().enumerate() {
        let start = starts[number];
        let len = path_len(&text[start..]);
        calls.push(Located {
            site: *site,
            start,
            end: start + len,
        })?;
    }
    Ok(calls)
}

// Calls, and where their paths stand in the text of their file.
fn located_in(alloc: Global, text: &str, sites: &[Site]) -> Result<Vec<Located>, Memory>
    ensures { IfOk result (λ v. AreLocated text.now sites.now v.items) }
{
    let places = places_of(alloc, sites)?;
    let starts = offsets_of_places(alloc, text, places.as_slice())?;
    zipped(alloc, text.as_bytes(), sites, starts.as_slice())
}

/// Those of the calls that stand in this file, in their order, and where their paths stand in its text. Where the
/// calls stand by their places the text is walked once.
///
/// # Errors
/// `Memory` only.
pub(crate) fn calls_in(
    alloc: Global,
    text: &str,
    file: u32,
    sites: &[Site],
) -> Result<Vec<Located>, Memory>
    ensures { IfOk result (λ v. AreLocated text.now (filter (is_in file) sites.now) v.items) }
{
    let found = in_file(alloc, sites, file)?;
    located_in(alloc, text, found.as_slice())
}

/// Those whose paths begin between two offsets, or at one of them.
///
/// # Errors
/// `Memory` only.
pub(crate) fn beginning(
    alloc: Global,
    calls: &[Located],
    from: usize,
    to: usize,
) -> Result<Vec<Located>, Memory>
    ensures { IfOk result (λ v. v.items ≡ filter (begins_within from to) calls.now) }
{
    let mut found = Vec::new(alloc);
    for call in calls {
        if call.start < from || call.start > to {
            continue;
        }
        found.push(*call)?;
    }
    Ok(found)
}

/// The first of the calls whose path covers an offset, if there is one.
pub fn covering(calls: &[Located], offset: usize) -> Option<Located>
    ensures { result ≡ first (filter (covers offset) calls.now) }
{
    for call in calls {
        if call.start <= offset && offset <= call.end {
            return Some(*call);
        }
    }
    None
}
