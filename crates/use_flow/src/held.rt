//! The tables of a program: a set of elements for each key.
//! Keys and contexts have numbers, which are looked up by hashing; sets stand by their numbers.

ghost use Rattle.std.specs.Prelude.{◌≡◌, ◌≢◌, ◌<◌, ◌≤◌, length, position, is_some, option_map, IfOk, OnOk};
ghost use Rattle.std.specs.Bool.{OnFalse, OnTrue};
ghost use Rattle.mg_sets.specs.Sets.{has, join, members, Grows};
ghost use Rattle.use_rules.specs.declared.key.TableKey.{TableKey};
ghost use Rattle.ts_tree.specs.Calls.{initial};
ghost use Rattle.use_rules.specs.Start.{start_in, start_of, starting};
ghost use Rattle.use_rules.specs.Fits.{reached_set};
ghost use Rattle.use_rules.specs.Keys.{number_of, reached_states, same_context, typestate_of};
ghost use Rattle.use_flow.specs.inner.Entering.{set_or_none};
ghost use Rattle.use_flow.specs.inner.Holding.{AreApart, AreHeld, WithEntry};
ghost use Rattle.use_flow.specs.Runs.{starts_of, starts_in};
ghost use Rattle.use_flow.specs.View.{same_key, tables_of, contexts_of, reached_of, lacks, HasKey, AreFor, IsKept};

use crate::classed::{Entry, entries_of};
use crate::entered::{Entered, contexts_by, reached_in, reached_sets};
use crate::fields::number;
use crate::runs::{Runs, runs_by};
use crate::scene::{class_at, elements_in, typestate_of};
use crate::{Context, TableKey};
use indexmap::IndexSet;
use jv_core::Core;
use mg_sets::StateSet;
use mg_text::Memory;
use std::alloc::Global;
use ts_tree::To;
use use_elements::{copy_set, empty_set, mark};

/// The tables of a program: a set for each field of an object in a state, each parameter and result
/// of a context, each field where a helper is entered and left, and each variable at a loop's head.
/// Each set is as wide as its class has elements.
pub struct Tables {
    // By typestates: the states that calls lead to.
    reached: Vec<StateSet>,
    contexts: IndexSet<Context>,
    // By the numbers of the contexts: the place of the method in its state, where it is tried first.
    places: Vec<u32>,
    keys: IndexSet<TableKey>,
    // By the numbers of the keys.
    sets: Vec<StateSet>,
}

// One call lets go of it, wherever a function ends.
impl Drop for Tables {
    fn drop(self) {
        let Tables {
            reached: _,
            contexts: _,
            places: _,
            keys: _,
            sets: _,
        } = self;
    }
}

// The contexts, each with its place as its number.
#[tactic(auto, using(crate::proofs::Apart::inserting))]
fn numbered(alloc: Global, contexts: &[Context]) -> Result<IndexSet<Context>, Memory>
    ensures { IfOk result (λ s. AreApart contexts.now → s.keys ≡ contexts.now) }
{
    let mut numbers = IndexSet::new(alloc);
    for place in 0..contexts.len() {
        let _new = numbers.insert(contexts[place])?;
    }
    Ok(numbers)
}

// Where objects of a class begin.
fn begin_of(core: &Core, class: u32) -> To
    ensures { result ≡ initial (typestate_of core.now class) }
{
    match typestate_of(core, class) {
        Some(typestate) => typestate.initial(),
        None => To::End,
    }
}

// What a field has before anything flows, in a state of an object that begins there.
#[tactic(auto, using(crate::proofs::Holding::starts))]
fn starting(alloc: Global, begins: To, state: u32, width: usize) -> Result<StateSet, Memory>
    ensures { IfOk result (λ s. s ≡ starting begins state width) }
{
    let mut set = empty_set(alloc, width)?;
    match begins {
        To::State(begin) => {
            if begin != 0 {
                return Ok(set);
            }
            if state != 0 {
                return Ok(set);
            }
            mark(&mut set, 0);
            Ok(set)
        }
        To::End => Ok(set),
    }
}

// What a table has before anything flows.
fn start_set(alloc: Global, core: &Core, entry: Entry) -> Result<StateSet, Memory>
    ensures { IfOk result (λ s. s ≡ start_in core.now entry.key entry.class) }
{
    let width = elements_in(core, entry.class);
    match entry.key {
        TableKey::Field { class, state, .. } => {
            starting(alloc, begin_of(core, class), state, width)
        }
        TableKey::Param { .. }
        | TableKey::Result { .. }
        | TableKey::Enter { .. }
        | TableKey::Leave { .. }
        | TableKey::Loop { .. } => empty_set(alloc, width),
    }
}

// Makes the set of a table, where it has none yet.
#[tactic(auto, using(crate::proofs::Holding::holding))]
fn hold(
    alloc: Global,
    core: &Core,
    keys: &mut IndexSet<TableKey>,
    sets: &mut Vec<StateSet>,
    entry: Entry,
) -> Result<(), Memory>
    ensures { OnOk result (WithEntry core.now entry keys.old.keys sets.old.items keys.new.keys sets.new.items) }
{
    let new = keys.insert(entry.key)?;
    if !new {
        return Ok(());
    }
    let set = start_set(alloc, core, entry)?;
    sets.push(set)?;
    Ok(())
}

// Tables with the sets of these entries before anything flows.
#[tactic(auto, using(crate::proofs::Holding::filling))]
fn filled(
    alloc: Global,
    core: &Core,
    reached: Vec<StateSet>,
    contexts: IndexSet<Context>,
    places: Vec<u32>,
    entries: &[Entry],
) -> Result<Tables, Memory>
    ensures reached { IfOk result (λ t. reached_of t ≡ reached.items) }
    ensures contexts { IfOk result (λ t. contexts_of t ≡ contexts.keys) }
    ensures held { IfOk result (λ t. AreHeld core.now entries.now (length entries.now) t.keys.keys t.sets.items) }
{
    let mut keys = IndexSet::new(alloc);
    let mut sets = Vec::new(alloc);
    for place in 0..entries.len() {
        hold(alloc, core, &mut keys, &mut sets, entries[place])?;
    }
    Ok(Tables {
        reached,
        contexts,
        places,
        keys,
        sets,
    })
}

impl Tables {
    /// The tables before anything flows: a field that has objects holds null alone where its own
    /// object begins, and all other sets are empty.
    ///
    /// # Errors
    /// `Memory` only.
    pub fn new(alloc: Global, core: &Core) -> Result<Tables, Memory>
        ensures made { IfOk result (λ t. AreFor core.now t) }
        ensures start { IfOk result (λ t. (key : TableKey) → tables_of t key ≡ start_of core.now (reached_of t) key) }
    {
        let reached = reached_sets(alloc, core)?;
        let contexts = contexts_by(alloc, core, reached.as_slice())?;
        let Entered {
            contexts: all,
            places,
        } = contexts;
        let entries = entries_of(alloc, core, all.as_slice())?;
        let numbers = numbered(alloc, all.as_slice())?;
        filled(alloc, core, reached, numbers, places, entries.as_slice())
    }

    /// How many sets there are.
    pub fn count(&self) -> usize
        ensures { result ≡ length self.now.sets.items }
    {
        self.sets.len()
    }

    /// The number of a key's set, if the tables have the key.
    #[tactic(auto, using(crate::proofs::Keyed::keyed))]
    pub fn number_of(&self, key: TableKey) -> Option<usize>
        ensures { result ≡ position (same_key key) self.now.keys.keys }
    {
        self.keys.get_index_of(&key)
    }

    // The number of a context.
    #[tactic(auto, using(crate::proofs::Keyed::keyed))]
    pub(crate) fn context_number(&self, context: Context) -> Result<u32, Memory>
        ensures { IfOk result (λ n. n ≡ number_of (contexts_of self.now) context) }
    {
        match self.contexts.get_index_of(&context) {
            Some(index) => number(index),
            None => Ok(0),
        }
    }

    /// The contexts, by their numbers.
    pub fn contexts(&self) -> &[Context]
        ensures { result.now ≡ contexts_of self.now }
    {
        self.contexts.as_slice()
    }

    // Whether calls lead to a state of a class.
    #[tactic(auto, using(crate::proofs::Scenes::scenes))]
    pub(crate) fn is_reached(&self, core: &Core, class: u32, state: usize) -> bool
        ensures { result ≡ has (reached_set core.now (reached_of self.now) class) state }
    {
        let Some(class) = class_at(core, class) else {
            return false;
        };
        let Some(typestate) = class.typestate else {
            return false;
        };
        let Some(set) = self.reached.get(typestate as usize) else {
            return false;
        };
        if state < set.width() {
            return set.has(state);
        }
        false
    }

    // A place for the method of a context in its state, exactly where there is the context.
    #[tactic(auto, using(crate::proofs::Keyed::keyed))]
    pub(crate) fn place_in(&self, context: Context) -> Option<usize>
        ensures { is_some result ≡ is_some (position (same_context context) (contexts_of self.now)) }
    {
        let number = self.contexts.get_index_of(&context)?;
        match self.places.get(number) {
            Some(place) => Some(*place as usize),
            None => Some(0),
        }
    }

    /// Where the contexts of each method begin.
    ///
    /// # Errors
    /// `Memory` only.
    pub fn runs(&self, alloc: Global, core: &Core) -> Result<Runs, Memory>
        ensures { IfOk result (λ r. starts_of r ≡ starts_in core.now (reached_of self.now)) }
    {
        runs_by(alloc, core, self.reached.as_slice())
    }

    // A copy of the set of a key, empty where there is none.
    #[tactic(auto, using(crate::proofs::Scenes::scenes))]
    pub(crate) fn copy_of(&self, alloc: Global, key: TableKey) -> Result<StateSet, Memory>
        ensures { IfOk result (λ s. s ≡ tables_of self.now key) }
    {
        let Some(at) = self.number_of(key) else {
            return empty_set(alloc, 0);
        };
        if at < self.sets.len() {
            return copy_set(&self.sets[at]);
        }
        empty_set(alloc, 0)
    }

    /// The set of a key.
    pub fn get(&self, key: TableKey) -> &StateSet
        requires { HasKey self.now key }
        ensures { result.now ≡ tables_of self.now key }
    {
        let Some(number) = self.number_of(key) else {
            unreachable!()
        };
        &self.sets[number]
    }

    /// The set of a key, if the tables have the key.
    #[tactic(auto, using(crate::proofs::Scenes::scenes))]
    pub fn find(&self, key: TableKey) -> Option<&StateSet>
        ensures { set_or_none (option_map (λ s. s.now) result) ≡ tables_of self.now key }
    {
        let number = self.number_of(key)?;
        self.sets.get(number)
    }

    /// The states of a class that calls lead to, if it has a typestate.
    pub fn reached_states<'t>(&'t self, core: &Core, class: u32) -> Option<&'t StateSet>
        ensures { members (set_or_none (option_map (λ s. s.now) result)) ≡ reached_states core.now (reached_of self.now) class }
    {
        reached_in(core, self.reached.as_slice(), class)
    }

    /// Makes the members of a set members of the set of a key, which is at least as wide.
    /// True where that one grew, false where all is as before.
    pub fn join(&mut self, key: TableKey, set: &StateSet) -> bool
        requires known { HasKey self.old key }
        requires wide { length set.now ≤ length (tables_of self.old key) }
        ensures takes { tables_of self.new key ≡ join (tables_of self.old key) set.now }
        ensures others { (k : TableKey) → k ≢ key → tables_of self.new k ≡ tables_of self.old k }
        ensures same { OnFalse result ((k : TableKey) → tables_of self.new k ≡ tables_of self.old k) }
        ensures grew { OnTrue result (Grows (tables_of self.old key) (tables_of self.new key)) }
        ensures falls { OnTrue result (lacks self.new < lacks self.old) }
        ensures stays { OnFalse result (lacks self.new ≡ lacks self.old) }
        ensures kept { IsKept self.old self.new }
    {
        let Some(number) = self.number_of(key) else {
            unreachable!()
        };
        self.sets[number].join(set)
    }
}
