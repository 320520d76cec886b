//! What flows on behind an expression, with the set of its value.
//! Only a condition flows on in two ways; where both are alike they are kept once.

ghost use Rattle.std.specs.Prelude.{◌≡◌, [], ◌∷◌, Some, None, IfOk};
ghost use Rattle.use_rules.specs.Elements.{marked, none};
ghost use Rattle.use_rules.specs.State.{joined};
ghost use Rattle.use_flow.specs.inner.Values.{yes_of, no_of};

use jv_core::{CoreVar, Var};
use mg_sets::StateSet;
use mg_text::Memory;
use std::alloc::Global;
use use_elements::{Sets, copy_now, empty_set, mark, meet};

/// What flows on: alike both ways, or where a condition holds and where it doesn't.
#[derive(Drop)]
pub(crate) enum Ways {
    Alike(Option<Sets>),
    Apart(Option<Sets>, Option<Sets>),
}

/// What an expression gives, and what flows on behind it.
#[derive(Drop)]
pub(crate) struct Value {
    pub set: StateSet,
    pub ways: Ways,
}

/// A set for each argument, and what flows on behind them.
#[derive(Drop)]
pub(crate) struct Arguments {
    pub sets: Sets,
    pub now: Option<Sets>,
}

/// A variable that is tested for null, and whether the test holds where it is null.
#[derive(Clone, Copy)]
pub(crate) struct NullTest {
    pub variable: Var,
    pub holds: bool,
}

/// What a method is called on: a variable, the own object, or nothing.
#[derive(Clone, Copy)]
pub(crate) enum CallForm {
    Protocol(CoreVar),
    Helper,
    Static,
}

impl Ways {
    // What flows on behind an expression whose truth doesn't matter.
    #[tactic(auto, using(use_rules::proofs::Meeting::meeting))]
    pub(crate) fn after(self) -> Result<Option<Sets>, Memory>
        ensures { IfOk result (λ n. n ≡ joined (yes_of self) (no_of self)) }
    {
        match self {
            Ways::Alike(now) => Ok(now),
            Ways::Apart(yes, no) => meet(yes, no),
        }
    }

    // Both ways apart.
    pub(crate) fn split(self, alloc: Global) -> Result<(Option<Sets>, Option<Sets>), Memory>
        ensures yes { IfOk result (λ r. r.0 ≡ yes_of self) }
        ensures no { IfOk result (λ r. r.1 ≡ no_of self) }
    {
        match self {
            Ways::Alike(now) => {
                let other = copy_now(alloc, &now)?;
                Ok((now, other))
            }
            Ways::Apart(yes, no) => Ok((yes, no)),
        }
    }
}

impl Value {
    // No object, and alike both ways.
    pub(crate) fn plain(alloc: Global, now: Option<Sets>) -> Result<Value, Memory>
        ensures { IfOk result (λ v. v ≡ record { set = []; ways = Ways.Alike now }) }
    {
        let set = empty_set(alloc, 0)?;
        Ok(Value {
            set,
            ways: Ways::Alike(now),
        })
    }

    // A condition, which has no object.
    pub(crate) fn apart(
        alloc: Global,
        yes_now: Option<Sets>,
        no_now: Option<Sets>,
    ) -> Result<Value, Memory>
        ensures { IfOk result (λ v. v ≡ record { set = []; ways = Ways.Apart yes_now no_now }) }
    {
        let set = empty_set(alloc, 0)?;
        Ok(Value {
            set,
            ways: Ways::Apart(yes_now, no_now),
        })
    }

    // One element of a set of this width.
    pub(crate) fn single(
        alloc: Global,
        width: usize,
        element: usize,
        sets: Sets,
    ) -> Result<Value, Memory>
        ensures { IfOk result (λ v. v ≡ record { set = marked (element ∷ []) (none width); ways = Ways.Alike (Some sets) }) }
    {
        let mut set = empty_set(alloc, width)?;
        mark(&mut set, element);
        Ok(Value {
            set,
            ways: Ways::Alike(Some(sets)),
        })
    }
}
