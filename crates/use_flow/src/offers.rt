//! Which states of a typestate offer the methods of a name.
//! A table is made by one walk over all that is offered.

ghost use Rattle.std.specs.Prelude.{◌≡◌, ◌++◌, ◌∷◌, [], map, if◌then◌else◌, IfOk, OnOk};
ghost use Rattle.std.specs.Str.{bytes_eq};
ghost use Rattle.mg_text.specs.Call.{Name};
ghost use Rattle.ts_tree.specs.View.{method_of};
ghost use Rattle.use_flow.specs.inner.Offering.{by_methods, states_of, IsEven, IsOfferedBy, AreOffers};

use crate::fields::number;
use jv_core::Core;
use mg_text::{Memory, Names};
use std::alloc::Global;
use ts_tree::{Method, Typestate};

/// A state that offers a method, and the place of the method there.
#[derive(Clone, Copy)]
pub(crate) struct Offer {
    pub state: u32,
    pub place: u32,
}

/// By the names of methods: the states that offer one.
pub(crate) struct Offers {
    names: Names,
    // By the numbers of the names.
    lists: Vec<Vec<Offer>>,
}

// One call lets go of it, wherever a function ends.
impl Drop for Offers {
    fn drop(self) {
        let Offers { names: _, lists: _ } = self;
    }
}

// As many names have numbers.
const MOST_NAMES: usize = 0x1_0000_0000;

impl Offers {
    // Nothing is offered.
    fn new(alloc: Global) -> Offers
        ensures even { IsEven result }
        ensures none { (name : Name) → states_of result name ≡ [] }
    {
        Offers {
            names: Names::new(alloc),
            lists: Vec::new(alloc),
        }
    }

    // One more state offers a method of this name.
    fn note(&mut self, alloc: Global, name: &str, offer: Offer) -> Result<(), Memory>
        requires { IsEven self.old }
        ensures even { OnOk result (IsEven self.new) }
        ensures one { OnOk result ((m : Name) → states_of self.new m ≡ states_of self.old m
            ++ (if bytes_eq name.now m then offer.state ∷ [] else [])) }
    {
        if self.names.len() >= MOST_NAMES {
            return Err(Memory);
        }
        let number = self.names.add(name)?.0 as usize;
        if number < self.lists.len() {
            let list = &mut self.lists[number];
            list.push(offer)?;
            return Ok(());
        }
        let mut list = Vec::new(alloc);
        list.push(offer)?;
        self.lists.push(list)?;
        Ok(())
    }

    // A state offers these methods.
    fn note_methods(&mut self, alloc: Global, state: u32, methods: &[Method]) -> Result<(), Memory>
        requires { IsEven self.old }
        ensures even { OnOk result (IsEven self.new) }
        ensures all { OnOk result ((m : Name) → states_of self.new m ≡ states_of self.old m
            ++ by_methods state (map method_of methods.now) m) }
    {
        for place in 0..methods.len() {
            let offer = Offer {
                state,
                place: number(place)?,
            };
            self.note(alloc, methods[place].name.as_str(), offer)?;
        }
        Ok(())
    }

    // The states that offer a method of this name, in rising order.
    #[tactic(auto, using(crate::proofs::Offering::found))]
    pub(crate) fn of(&self, name: &str) -> &[Offer]
        ensures { map (λ o. o.state) result.now ≡ states_of self.now name.now }
    {
        let Some(number) = self.names.find(name) else {
            return &[];
        };
        let at = number.0 as usize;
        if at < self.lists.len() {
            return self.lists[at].as_slice();
        }
        &[]
    }
}

// What a typestate offers.
fn offers_of(alloc: Global, typestate: &Typestate) -> Result<Offers, Memory>
    ensures { IfOk result (λ o. IsOfferedBy typestate.now o) }
{
    let mut offers = Offers::new(alloc);
    let states = typestate.states.as_slice();
    for state in 0..states.len() {
        let at = number(state)?;
        offers.note_methods(alloc, at, states[state].methods.as_slice())?;
    }
    Ok(offers)
}

// What each typestate offers.
#[tactic(auto, using(crate::proofs::Offering::tables))]
pub(crate) fn all_offers(alloc: Global, core: &Core) -> Result<Vec<Offers>, Memory>
    ensures { IfOk result (λ v. AreOffers core.now v.items) }
{
    let mut all = Vec::new(alloc);
    for typestate in core.typestates() {
        let offers = offers_of(alloc, typestate)?;
        all.push(offers)?;
    }
    Ok(all)
}
