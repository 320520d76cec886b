//! What calls are made on, over all contexts: the sets of the sights of a place, taken together.
//! Places are looked up by hashing, so that the work grows with the sights.

ghost use Rattle.std.specs.Prelude.{◌≡◌, map, IfOk, OnOk, option_map};
ghost use Rattle.indexmap.specs.IndexMap.{get};
ghost use Rattle.use_rules.specs.Elements.{union};
ghost use Rattle.use_flow.specs.View.{sight_of};
ghost use Rattle.mg_shown.specs.inner.Seeing.{key_of, set_or_none, AreSeen, IsSeen};

use indexmap::IndexMap;
use mg_sets::StateSet;
use mg_text::{Memory, Place};
use std::alloc::Global;
use use_elements::{copy_set, take_in};
use use_flow::Sight;

/// A place as a key.
#[derive(Clone, Copy, PartialEq, Eq, Hash)]
pub struct PlaceKey {
    file: u32,
    line: u32,
    column: u32,
}

/// The key of a place.
pub fn key_of(place: Place) -> PlaceKey
    ensures { result ≡ key_of place }
{
    PlaceKey {
        file: place.file,
        line: place.line,
        column: place.column,
    }
}

// What was seen at a place, and this too.
fn joined(known: Option<&StateSet>, set: &StateSet) -> Result<StateSet, Memory>
    ensures { IfOk result (λ s. s ≡ union (set_or_none (option_map (λ k. k.now) known.entry)) set.now) }
{
    match known {
        Some(known) => {
            let mut all = copy_set(known)?;
            take_in(&mut all, set)?;
            Ok(all)
        }
        None => copy_set(set),
    }
}

// Notes what a call is made on.
fn note(seen: &mut IndexMap<PlaceKey, StateSet>, sight: &Sight) -> Result<(), Memory>
    ensures { OnOk result (IsSeen (sight_of sight.now) (get ⟦<PlaceKey as PartialEq>⟧.eq seen.old) (get ⟦<PlaceKey as PartialEq>⟧.eq seen.new)) }
{
    let key = key_of(sight.place);
    let all = joined(seen.get(&key), &sight.set)?;
    seen.insert(key, all)?;
    Ok(())
}

/// What is seen at each place.
pub fn seen_of(alloc: Global, sights: &[Sight]) -> Result<IndexMap<PlaceKey, StateSet>, Memory>
    ensures { IfOk result (λ m. AreSeen (map sight_of sights.now) (get ⟦<PlaceKey as PartialEq>⟧.eq m)) }
{
    let mut seen = IndexMap::new(alloc);
    for sight in sights {
        note(&mut seen, sight)?;
    }
    Ok(seen)
}
