//! What is offered where a call stands in a program.

ghost use Rattle.std.specs.Prelude.{◌≡◌, All, Contains, IfOk, MatchOption, false, true, option_map};
ghost use Rattle.indexmap.specs.IndexMap.{get};
ghost use Rattle.use_elements.specs.Mappings.{typestate_or_end};
ghost use Rattle.use_sights.specs.Sights.{same_place};
ghost use Rattle.mg_shown.specs.inner.Seeing.{at_place};
ghost use Rattle.lsp_offers.specs.Items.{items_of};
ghost use Rattle.lsp_offers.specs.Offered.{IsAt, NoneAt, items_at, AreItems, AreItemsAt};

use crate::items::items_of;
use indexmap::IndexMap;
use jv_core::Core;
use lsp_messages::Item;
use mg_sets::StateSet;
use mg_shown::listed::listed;
use mg_shown::seen::{PlaceKey, key_of, seen_of};
use mg_text::{Memory, Place};
use std::alloc::Global;
use ts_tree::Typestate;
use use_elements::empty_set;
use use_flow::{method_at, typestate_of};
use use_sights::Site;
use use_verdict::find_usages;

// Whether two places are the same.
fn same_place(one: Place, other: Place) -> bool
    ensures { result ≡ same_place one other }
{
    one.file == other.file && one.line == other.line && one.column == other.column
}

// The first of these calls that stands at a place, if one does.
fn site_among(sites: &[Site], place: Place) -> Option<Site>
    ensures { MatchOption result (All (λ s. same_place place s.place ≡ false) sites.now)
        (λ s. Contains sites.now s × (same_place place s.place ≡ true)) }
{
    for site in sites {
        if same_place(place, site.place) {
            return Some(*site);
        }
    }
    None
}

// The call that stands at a place of a program, if one does.
fn site_at(alloc: Global, core: &Core, place: Place) -> Result<Option<Site>, Memory>
    ensures { IfOk result (λ o. MatchOption o (NoneAt core.now place) (IsAt core.now place)) }
{
    let sites = listed(alloc, core)?;
    Ok(site_among(sites.as_slice(), place))
}

// What a typestate offers in the states of a set.
fn offered_of(
    alloc: Global,
    typestate: Option<&Typestate>,
    set: &StateSet,
) -> Result<Vec<Item>, Memory>
    ensures { IfOk result (λ v. v.items ≡ items_of (typestate_or_end (option_map (λ t. t.now) typestate.entry)).states set.now) }
{
    match typestate {
        Some(typestate) => items_of(alloc, typestate.states.as_slice(), set),
        None => items_of(alloc, &[], set),
    }
}

// What is offered where a call stands, in the states of a set.
fn offered_in(alloc: Global, core: &Core, site: Site, set: &StateSet) -> Result<Vec<Item>, Memory>
    ensures { IfOk result (λ v. v.items ≡ items_at core.now site set.now) }
{
    match method_at(core, site.method) {
        Some(method) => offered_of(alloc, typestate_of(core, method.class), set),
        None => Ok(Vec::new(alloc)),
    }
}

// The same by what is seen at each place.
fn offered_by(
    alloc: Global,
    core: &Core,
    site: Site,
    seen: &IndexMap<PlaceKey, StateSet>,
) -> Result<Vec<Item>, Memory>
    ensures { IfOk result (λ v. v.items ≡ items_at core.now site (at_place (get ⟦<PlaceKey as PartialEq>⟧.eq seen.now) site.place)) }
{
    match seen.get(&key_of(site.place)) {
        Some(set) => offered_in(alloc, core, site, set),
        None => {
            let nothing = empty_set(alloc, 0)?;
            offered_in(alloc, core, site, &nothing)
        }
    }
}

// What is offered where a call stands.
fn offered_at(alloc: Global, core: &Core, site: Site) -> Result<Vec<Item>, Memory>
    ensures { IfOk result (λ v. AreItems core.now site v.items) }
{
    let met = find_usages(alloc, core)?;
    let seen = seen_of(alloc, met.sights.as_slice())?;
    offered_by(alloc, core, site, &seen)
}

/// What is offered where a call stands at a place, if one does.
///
/// # Errors
/// `Memory` only.
pub(crate) fn items_in(
    alloc: Global,
    core: &Core,
    place: Place,
) -> Result<Option<Vec<Item>>, Memory>
    ensures { IfOk result (λ o. MatchOption o (NoneAt core.now place) (λ v. AreItemsAt core.now place v.items)) }
{
    match site_at(alloc, core, place)? {
        Some(site) => {
            let items = offered_at(alloc, core, site)?;
            Ok(Some(items))
        }
        None => Ok(None),
    }
}
