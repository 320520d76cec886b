//! In which ways the methods of a program are followed.
//! A protocol method is followed once for each state that calls lead to and that offers it.

ghost use Rattle.std.specs.Prelude.{◌≡◌, ◌++◌, [], ◌∷◌, map, option_map, IfOk, OnOk};
ghost use Rattle.mg_sets.specs.Sets.{members};
ghost use Rattle.ts_tree.specs.Proper.{IsProper};
ghost use Rattle.ts_tree.specs.Reachable.{MarksReachable};
ghost use Rattle.jv_core.specs.View.{method_of};
ghost use Rattle.jv_core.specs.Lookup.{text_at};
ghost use Rattle.use_rules.specs.Keys.{AreReached, contexts_in, contexts_of, in_states, offering_states, reached_states, typestate_of};
ghost use Rattle.use_rules.specs.Keys.{AreProper};
ghost use Rattle.use_flow.specs.View.{AreContexts};
ghost use Rattle.use_flow.specs.inner.Entering.{set_or_none, entered_in};
ghost use Rattle.use_flow.specs.inner.Offering.{AreOffers, offers_at};

use crate::Context;
use crate::fields::number;
use crate::offers::{Offer, Offers, all_offers};
use crate::scene::class_at;
use jv_core::{Core, CoreMethod, MethodKind, name_text};
use mg_sets::StateSet;
use mg_text::{List, Memory};
use std::alloc::Global;
use ts_tree::Typestate;

// The states of a typestate that calls lead to; a typestate keeps its conditions.
fn reached_set(alloc: Global, typestate: &Typestate) -> Result<StateSet, Memory>
    ensures marks { IfOk result (MarksReachable typestate.now) }
    ensures proper { IsProper typestate.now.states }
{
    let _states = &typestate.states;
    typestate.reachable(alloc)
}

// The states of each typestate that calls lead to.
#[tactic(auto, using(crate::proofs::Entries::reached))]
pub(crate) fn reached_sets(alloc: Global, core: &Core) -> Result<Vec<StateSet>, Memory>
    ensures reached { IfOk result (λ v. AreReached core.now v.items) }
    ensures proper { OnOk result (AreProper core.now) }
{
    let mut reached = Vec::new(alloc);
    for typestate in core.typestates() {
        let set = reached_set(alloc, typestate)?;
        reached.push(set)?;
    }
    Ok(reached)
}

// The states of a class that calls lead to, if it has a typestate.
#[tactic(auto, using(crate::proofs::Scenes::scenes))]
pub(crate) fn reached_in<'r>(
    core: &Core,
    reached: &'r [StateSet],
    class: u32,
) -> Option<&'r StateSet>
    ensures { members (set_or_none (option_map (λ s. s.now) result)) ≡ reached_states core.now reached.now class }
{
    let class = class_at(core, class)?;
    let typestate = class.typestate?;
    reached.get(typestate as usize)
}

// The contexts that were found, each with the place that its method has in its state.
#[derive(Drop)]
pub(crate) struct Entered {
    pub contexts: List<Context>,
    pub places: Vec<u32>,
}

impl Entered {
    // None were found yet.
    pub(crate) fn new(alloc: Global) -> Entered
        ensures { result.contexts.items ≡ [] }
    {
        Entered {
            contexts: List::new(alloc),
            places: Vec::new(alloc),
        }
    }

    // Appends a context.
    fn add(&mut self, context: Context, place: u32) -> Result<(), Memory>
        ensures { OnOk result (self.new.contexts.items ≡ self.old.contexts.items ++ context ∷ []) }
    {
        self.places.push(place)?;
        self.contexts.push(context)
    }
}

// Appends the contexts of a protocol method in those of the states that offer it that are in a set.
#[tactic(auto, using(crate::proofs::Offering::entering))]
fn add_states(
    entered: &mut Entered,
    method_number: u32,
    class: u32,
    offers: &[Offer],
    set: &StateSet,
) -> Result<(), Memory>
    ensures { OnOk result (entered.new.contexts.items ≡ entered.old.contexts.items ++ entered_in class method_number set.now
        (map (λ o. o.state) offers.now)) }
{
    for offer in offers {
        let state = offer.state as usize;
        if state >= set.width() {
            continue;
        }
        if !set.has(state) {
            continue;
        }
        let context = Context::Protocol {
            class,
            state: offer.state,
            method: method_number,
        };
        entered.add(context, offer.place)?;
    }
    Ok(())
}

// What the typestate of a class offers, if it has one.
#[tactic(auto, using(crate::proofs::Scenes::scenes))]
fn offers_in<'o>(core: &Core, offers: &'o [Offers], class: u32) -> Option<&'o Offers>
    ensures { option_map (λ o. o.now) result ≡ offers_at core.now offers.now class }
{
    let class = class_at(core, class)?;
    let typestate = class.typestate?;
    offers.get(typestate as usize)
}

// Appends the contexts of a protocol method.
#[tactic(auto, using(crate::proofs::Scenes::scenes))]
fn add_protocol(
    core: &Core,
    reached: &[StateSet],
    offers: &[Offers],
    entered: &mut Entered,
    method_number: u32,
    method: &CoreMethod,
) -> Result<(), Memory>
    requires { AreOffers core.now offers.now }
    ensures { OnOk result (entered.new.contexts.items ≡ entered.old.contexts.items ++ in_states method.now.class method_number
        (offering_states (typestate_of core.now method.now.class) (reached_states core.now reached.now method.now.class)
        (text_at core.now method.now.name.0))) }
{
    let Some(set) = reached_in(core, reached, method.class) else {
        return Ok(());
    };
    let Some(offers) = offers_in(core, offers, method.class) else {
        return Ok(());
    };
    let name = name_text(core, method.name);
    add_states(entered, method_number, method.class, offers.of(name), set)
}

// Appends the contexts of a method.
pub(crate) fn add_contexts(
    core: &Core,
    reached: &[StateSet],
    offers: &[Offers],
    entered: &mut Entered,
    method_number: u32,
    method: &CoreMethod,
) -> Result<(), Memory>
    requires { AreOffers core.now offers.now }
    ensures { OnOk result (entered.new.contexts.items ≡ entered.old.contexts.items ++ contexts_of core.now reached.now method_number
        (method_of method.now)) }
{
    match method.kind {
        MethodKind::Protocol => {
            add_protocol(core, reached, offers, entered, method_number, method)
        }
        MethodKind::Main | MethodKind::Static | MethodKind::Helper => {
            let context = Context::Plain {
                method: method_number,
            };
            entered.add(context, 0)
        }
    }
}

// All contexts, by the states that calls lead to.
#[tactic(auto, using(crate::proofs::Entries::methods))]
pub(crate) fn contexts_by(
    alloc: Global,
    core: &Core,
    reached: &[StateSet],
) -> Result<Entered, Memory>
    ensures { IfOk result (λ l. l.contexts.items ≡ contexts_in core.now reached.now) }
{
    let methods = core.methods();
    let offers = all_offers(alloc, core)?;
    let mut entered = Entered::new(alloc);
    for place in 0..methods.len() {
        let method_number = number(place)?;
        add_contexts(
            core,
            reached,
            offers.as_slice(),
            &mut entered,
            method_number,
            &methods[place],
        )?;
    }
    Ok(entered)
}

/// All contexts of a program, methods in file and text order, and the states of a protocol method in
/// rising order.
///
/// # Errors
/// `Memory` only.
pub fn contexts(alloc: Global, core: &Core) -> Result<List<Context>, Memory>
    ensures { IfOk result (λ l. AreContexts core.now l.items) }
{
    let reached = reached_sets(alloc, core)?;
    let entered = contexts_by(alloc, core, reached.as_slice())?;
    let Entered { contexts, places } = entered;
    drop(places);
    Ok(contexts)
}
