//! Places that wait to be followed. The one that began to wait last is taken first.

ghost use Rattle.std.specs.Prelude.{◌≡◌, ℕ, get_or, replicate, slice_set, true, false, IfOk, OnOk, MatchOption};
ghost use Rattle.cls_search.specs.Ordered.{AreOrdered, OthersOrdered};

use mg_text::Memory;
use std::alloc::Global;
use std::marker::Model;

/// Which places wait.
#[derive(Drop)]
pub(crate) struct Waiting {
    places: Vec<bool>,
    /// The places that wait, in the order in which they began to.
    order: Vec<usize>,
}

impl Model for Waiting {
    ghost use Rattle.std.specs.Prelude.{List, Bool};

    ghost Value = { List Bool };

    ghost use Rattle.cls_search.specs.Ordered.{AreOrdered};

    ghost view = { λ w. w.places.items };

    ghost invariant = { λ w. AreOrdered w.places.items w.order.items };
}

/// Whether a place waits.
fn is_waiting(places: &[bool], place: usize) -> bool
    ensures { result ≡ get_or places.now place false }
{
    match places.get(place) {
        Some(waits) => *waits,
        None => false,
    }
}

/// The last place of a list that waits. What stands behind it is taken away.
fn pop_waiting(places: &[bool], order: &mut Vec<usize>) -> Option<usize>
    requires { AreOrdered places.now order.old.items }
    ensures { MatchOption result ((place : ℕ) → get_or places.now place false ≡ false)
        (λ place. (get_or places.now place false ≡ true) × OthersOrdered places.now order.new.items place) }
{
    'down: while let Some(place) = order.pop() {
        if is_waiting(places, place) {
            return Some(place);
        }
    }
    None
}

impl Waiting {
    /// So many places, none of which waits.
    pub(crate) fn new(alloc: Global, count: usize) -> Result<Waiting, Memory>
        ensures { IfOk result (λ w. w ≡ replicate count false) }
    {
        let places = vec![in alloc; false; count]?;
        let order = Vec::new(alloc);
        Ok(Waiting { places, order })
    }

    /// A place waits, where there is such a place.
    pub(crate) fn wake(&mut self, place: usize) -> Result<(), Memory>
        ensures { OnOk result (self.new ≡ slice_set self.old place true) }
    {
        if place >= self.places.len() {
            return Ok(());
        }
        if is_waiting(self.places.as_slice(), place) {
            return Ok(());
        }
        self.order.push(place)?;
        self.places[place] = true;
        Ok(())
    }

    /// A place that waits. It waits no more.
    pub(crate) fn take(&mut self) -> Option<usize>
        ensures { MatchOption result ((place : ℕ) → get_or self.old place false ≡ false)
            (λ place. (get_or self.old place false ≡ true) × (self.new ≡ slice_set self.old place false)) }
    {
        let place = pop_waiting(self.places.as_slice(), &mut self.order)?;
        self.places[place] = false;
        Some(place)
    }
}
