//! In which files refusals are told.

ghost use Rattle.std.specs.Prelude.{◌≡◌, ◌<◌, ◌≤◌, [], length, map, replicate, IfOk, OnOk, vec_len};
ghost use Rattle.lsp_notes.specs.Homes.{place_of, place_among, place_in};
ghost use Rattle.lsp_notes.specs.inner.Groups.{with_refusal, groups_of};

use mg_refusal::{Refusal, Spot};
use mg_text::{Memory, Place};
use std::alloc::Global;

// Where a refusal stands, and where the first file begins for one that stands in no text.
fn place_of(spot: Spot) -> Place
    ensures { result ≡ place_of spot }
{
    match spot {
        Spot::Text(place) => place,
        Spot::Nowhere | Spot::Bytes { .. } => Place::start(0),
    }
}

/// Where a refusal is told, of so many files: where it stands, if that is in one of them, and else where
/// the first begins.
pub(crate) fn place_in(count: usize, refusal: &Refusal) -> Place
    ensures place { result ≡ place_in count refusal.now }
    ensures file { 0 < count → result.file < count }
{
    let place = place_of(refusal.spot());
    if (place.file as usize) < count {
        place
    } else {
        Place::start(0)
    }
}

// So many groups of no refusals.
fn no_groups(alloc: Global, count: usize) -> Result<Vec<Vec<Refusal>>, Memory>
    ensures { IfOk result (λ v. map (λ g. g.items) v.items ≡ replicate count []) }
{
    let mut groups = Vec::with_capacity(alloc, count)?;
    for _number in 0..count {
        groups.push(Vec::new(alloc))?;
    }
    Ok(groups)
}

// One refusal more in the group of a number.
fn put(groups: &mut Vec<Vec<Refusal>>, number: usize, refusal: Refusal) -> Result<(), Memory>
    ensures { OnOk result (map (λ g. g.items) groups.new.items ≡ with_refusal number refusal (map (λ g. g.items) groups.old.items)) }
{
    if number < groups.len() {
        let group = &mut groups[number];
        group.push(refusal)?;
    }
    Ok(())
}

/// The refusals that are told in each of so many files, in their order.
///
/// # Errors
/// `Memory` only.
pub(crate) fn groups_of(
    alloc: Global,
    refusals: Vec<Refusal>,
    count: usize,
) -> Result<Vec<Vec<Refusal>>, Memory>
    ensures { IfOk result (λ v. map (λ g. g.items) v.items ≡ groups_of count refusals.items) }
{
    let mut groups = no_groups(alloc, count)?;
    for refusal in refusals {
        let place = place_in(count, &refusal);
        put(&mut groups, place.file as usize, refusal)?;
    }
    Ok(groups)
}
