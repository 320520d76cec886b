//! A walk over the states of a typestate, for the states that calls lead to.
//! A state that is met for the first time is marked, and waits for its turn.

ghost use Rattle.std.specs.Prelude.{◌≡◌, [], ◌∷◌, ◌++◌, Contains, IfOk, MatchOption, OnOk, false, fold, length, map, replicate};
ghost use Rattle.ts_tree.specs.Proper.{IsWithin};
ghost use Rattle.ts_tree.specs.View.{method_of};
ghost use Rattle.ts_tree.specs.inner.Visiting.{visited, targets_of, targets_in};

use crate::{Branch, Method, Target, To, TypeName};
use mg_sets::StateSet;
use mg_text::Memory;
use std::alloc::Global;
use std::marker::Model;

/// The states that were met, and those of them that wait for their turn.
#[derive(Drop)]
pub(crate) struct Walk {
    marked: StateSet,
    waiting: Vec<u32>,
}

impl Model for Walk {
    ghost use Rattle.ts_tree.specs.inner.Visiting.{Walked};

    ghost Value = { Walked };

    ghost view = { λ w. record { marked = w.marked; waiting = w.waiting.items } };
}

impl Walk {
    // So many states, none of which was met.
    pub(crate) fn new(alloc: Global, count: usize) -> Result<Walk, Memory>
        ensures { IfOk result (λ w. w ≡ record { marked = replicate count false; waiting = [] }) }
    {
        let Ok(marked) = StateSet::new(alloc, count) else {
            return Err(Memory);
        };
        Ok(Walk {
            marked,
            waiting: Vec::new(alloc),
        })
    }

    // A state that waits, and waits no longer.
    pub(crate) fn next(&mut self) -> Option<u32>
        ensures marked { self.new.marked ≡ self.old.marked }
        ensures next { MatchOption result (self.old.waiting ≡ []) (λ q. self.old.waiting ≡ self.new.waiting ++ q ∷ []) }
    {
        self.waiting.pop()
    }

    // A call leads there.
    pub(crate) fn visit(&mut self, to: To) -> Result<(), Memory>
        requires { IsWithin (length self.old.marked) to }
        ensures { OnOk result (self.new ≡ visited self.old to) }
    {
        if let To::State(state) = to {
            if self.marked.add(state as usize) {
                self.waiting.push(state)?;
            }
        }
        Ok(())
    }

    // Calls of the method lead to its targets.
    pub(crate) fn visit_targets(&mut self, method: &Method) -> Result<(), Memory>
        requires { (to : To) → Contains (targets_of (method_of method.now)) to → IsWithin (length self.old.marked) to }
        ensures { OnOk result (self.new ≡ fold visited self.old (targets_of (method_of method.now))) }
    {
        match &method.target {
            Target::One(to) => self.visit(*to),
            Target::ByAnswer(branches) => {
                if !matches!(method.result, TypeName::Named(_)) {
                    return Ok(());
                }
                self.visit_branches(branches.as_slice())
            }
        }
    }

    // Answers lead there.
    #[tactic(auto, using(crate::proofs::Visiting::visits))]
    fn visit_branches(&mut self, branches: &[Branch]) -> Result<(), Memory>
        requires { (to : To) → Contains (map (λ b. b.to) branches.now) to → IsWithin (length self.old.marked) to }
        ensures { OnOk result (self.new ≡ fold visited self.old (map (λ b. b.to) branches.now)) }
    {
        for branch in branches {
            self.visit(branch.to)?;
        }
        Ok(())
    }

    // Calls of these methods lead to their targets.
    #[tactic(auto, using(crate::proofs::Visiting::visits))]
    pub(crate) fn visit_all(&mut self, methods: &[Method]) -> Result<(), Memory>
        requires { (to : To) → Contains (targets_in (map method_of methods.now)) to → IsWithin (length self.old.marked) to }
        ensures { OnOk result (self.new ≡ fold visited self.old (targets_in (map method_of methods.now))) }
    {
        for method in methods {
            self.visit_targets(method)?;
        }
        Ok(())
    }

    // The states that were met.
    pub(crate) fn into_marked(self) -> StateSet
        ensures { result ≡ self.marked }
    {
        let Walk { marked, waiting } = self;
        drop(waiting);
        marked
    }
}
