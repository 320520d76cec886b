//! Whole typestates: a name and its states, the first of which is where an object begins.

use crate::copies::copy_states;
use crate::led::led_by;
use crate::walk::Walk;
use crate::{State, To};
use mg_sets::StateSet;
use mg_text::{List, Memory, Text};
use std::alloc::Global;
use std::marker::Model;

/// A typestate. The first state, if there is one, is the initial one.
///
/// Each target is one of its states or the end, no two states and no two methods of a state share
/// a name, methods of one name have one signature, no label stands twice in one list of answers,
/// and no state is named `end`.
pub struct Typestate {
    pub name: Text,
    pub states: List<State>,
}

// One call lets go of it, wherever a function ends.
impl Drop for Typestate {
    fn drop(self) {
        let Typestate { name: _, states: _ } = self;
    }
}

impl Model for Typestate {
    ghost use Rattle.ts_tree.specs.Typestate.{Typestate};

    ghost Value = { Typestate };

    ghost use Rattle.ts_tree.specs.View.{state_of};
    ghost use Rattle.ts_tree.specs.Proper.{IsProper};
    ghost use Rattle.std.specs.Prelude.{map};

    ghost view = { λ t. record { name = t.name; states = map state_of t.states.items } };

    ghost invariant = { λ t. IsProper (map state_of t.states.items) };
}

impl Typestate {
    ghost use Rattle.std.specs.Prelude.{◌≡◌, ◌<◌, IfOk, length, option_map};
    ghost use Rattle.ts_tree.specs.Calls.{initial, next, drops};
    ghost use Rattle.ts_tree.specs.Reachable.{MarksReachable};

    /// The initial state, or the end where there are no states.
    pub fn initial(&self) -> To
        ensures { result ≡ initial self.now }
    {
        if self.states.as_slice().is_empty() {
            To::End
        } else {
            To::State(0)
        }
    }

    /// Whether an object may be left in state `q`: whether the state is marked `drop: end`.
    pub fn drops(&self, q: u32) -> bool
        requires { q < length self.now.states }
        ensures { result ≡ drops self.now q }
    {
        let state = &self.states.as_slice()[q as usize];
        state.drops
    }

    /// An equal typestate.
    ///
    /// # Errors
    /// `Memory` only.
    pub fn copy(&self, alloc: Global) -> Result<Typestate, Memory>
        ensures { IfOk result (λ t. t ≡ self.now) }
    {
        let name = self.name.copy()?;
        let states = copy_states(alloc, self.states.as_slice())?;
        Ok(Typestate { name, states })
    }

    /// The states that calls lead to from the initial one: a set as wide as there are states.
    ///
    /// # Errors
    /// `Memory` only.
    pub fn reachable(&self, alloc: Global) -> Result<StateSet, Memory>
        ensures { IfOk result (MarksReachable self.now) }
    {
        let states = self.states.as_slice();
        let mut walk = Walk::new(alloc, states.len())?;
        walk.visit(self.initial())?;
        while let Some(state) = walk.next() {
            walk.visit_all(states[state as usize].methods.as_slice())?;
        }
        Ok(walk.into_marked())
    }

    /// Where a call of the method leads from state `q` if it answers so. None comes exactly where
    /// the state doesn't offer the method, or offers it with a list of labels that lacks the
    /// answer. An answer to a method without such a list is ignored.
    #[tactic(auto, using(crate::proofs::Searches::searches))]
    pub fn next(&self, q: u32, method: &str, answer: Option<&str>) -> Option<To>
        requires { q < length self.now.states }
        ensures { result ≡ next self.now q method.now (option_map (λ a. a.now) answer.entry) }
    {
        let state = &self.states.as_slice()[q as usize];
        for offered in state.methods.as_slice() {
            if offered.name.as_str() == method {
                return led_by(&offered.target, answer);
            }
        }
        None
    }
}
