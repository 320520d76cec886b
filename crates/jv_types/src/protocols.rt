//! What typestates offer, in tables that are made once for all classes of a typestate.

ghost use Rattle.std.specs.Prelude.{◌≡◌, [], ◌++◌, IfOk, OnOk, Some, map};
ghost use Rattle.std.specs.Coded.{codes};
ghost use Rattle.std.specs.List.{list_any};
ghost use Rattle.std.specs.Str.{bytes_eq};
ghost use Rattle.ts_tree.specs.View.{method_of as offer_of, state_of};
ghost use Rattle.jv_rules.specs.Program.{offers_in};
ghost use Rattle.jv_types.specs.inner.Blaming.{noted};
ghost use Rattle.jv_types.specs.inner.Entries.{OffersAll};
ghost use Rattle.jv_types.specs.inner.Offering.{offers_seen, firsts_among, AreAlike};

use crate::blame::note;
use mg_text::{Memory, Names};
use std::alloc::Global;
use ts_tree::{Method, State, Typestate};

/// A typestate and the methods that its states offer.
pub struct Protocol<'a> {
    pub of: &'a Typestate,
    // All of them, in the order of the states.
    pub(crate) offers: Vec<&'a Method>,
    // The first of each name. Those of one name have one signature.
    pub(crate) firsts: Vec<&'a Method>,
    pub(crate) names: Names,
    ghost all: { offers_seen offers.items ≡ offers_in of.now.states } by { Prim.hlevel codes },
    ghost first: { offers_seen firsts.items ≡ firsts_among [] (offers_in of.now.states) } by { Prim.hlevel codes },
    ghost alike: { AreAlike (offers_in of.now.states) } by { Prim.hlevel codes },
    ghost named: { OffersAll (Some of.now) names },
}

// One call lets go of it.
impl Drop for Protocol<'_> {
    fn drop(self) {
        let Protocol {
            of: _,
            offers: _,
            firsts: _,
            names: _,
        } = self;
    }
}

impl Protocol<'_> {
    /// Whether some state offers a method of this name.
    pub fn has_offer(&self, name: &str) -> bool
        ensures { result ≡ list_any (λ m. bytes_eq m.name name.now) (offers_in self.now.of.now.states) }
    {
        self.names.find(name).is_some()
    }
}

// Adds the methods of a state.
fn add_offers<'a>(all: &mut Vec<&'a Method>, methods: &'a [Method]) -> Result<(), Memory>
    ensures { OnOk result (offers_seen all.new.items ≡ offers_seen all.old.items ++ map offer_of methods.now) }
{
    for method in methods {
        all.push(method)?;
    }
    Ok(())
}

// The methods that states offer, in their order.
fn offers_of<'a>(alloc: Global, states: &'a [State]) -> Result<Vec<&'a Method>, Memory>
    ensures { IfOk result (λ v. offers_seen v.items ≡ offers_in (map state_of states.now)) }
{
    let mut all = Vec::new(alloc);
    for state in states {
        add_offers(&mut all, state.methods.as_slice())?;
    }
    Ok(all)
}

// The first method of each name that was not met, and these names.
fn first_offers<'a>(
    alloc: Global,
    names: &mut Names,
    offers: &[&'a Method],
) -> Result<Vec<&'a Method>, Memory>
    ensures names { OnOk result (names.new ≡ noted names.old (map (λ m. m.name) (offers_seen offers.now))) }
    ensures firsts { IfOk result (λ v. offers_seen v.items ≡ firsts_among names.old (offers_seen offers.now)) }
{
    let mut firsts = Vec::new(alloc);
    for offer in offers {
        let fresh = note(names, offer.name.as_str())?;
        if !fresh {
            continue;
        }
        firsts.push(*offer)?;
    }
    Ok(firsts)
}

// What a typestate offers.
fn protocol_of<'a>(alloc: Global, typestate: &'a Typestate) -> Result<Protocol<'a>, Memory>
    ensures { IfOk result (λ p. p.of.now ≡ typestate.now) }
{
    let offers = offers_of(alloc, typestate.states.as_slice())?;
    let mut names = Names::new(alloc);
    let firsts = first_offers(alloc, &mut names, offers.as_slice())?;
    Ok(Protocol {
        of: typestate,
        offers,
        firsts,
        names,
    })
}

/// What typestates offer, in their order.
pub(crate) fn protocols<'a>(
    alloc: Global,
    typestates: &'a [Typestate],
) -> Result<Vec<Protocol<'a>>, Memory>
    ensures { IfOk result (λ ps. map (λ p. p.of.now) ps.items ≡ typestates.now) }
{
    let mut all = Vec::new(alloc);
    for typestate in typestates {
        let protocol = protocol_of(alloc, typestate)?;
        all.push(protocol)?;
    }
    Ok(all)
}
