//! What is known at a place of a method: a set of elements for each variable.
//! Slots come first, and the own fields behind them; a variable that has no objects has an empty set.

ghost use Rattle.std.specs.Prelude.{◌≡◌, ◌<◌, ◌++◌, [], ◌∷◌, length, slice_set, slice_index_or, IfOk, OnOk};
ghost use Rattle.use_rules.specs.Elements.{union};
ghost use Rattle.use_rules.specs.State.{joined, joined_sets};

use crate::elements::copy_set;
use mg_sets::StateSet;
use mg_text::Memory;
use std::alloc::Global;
use std::marker::Model;

/// A set for each variable, seen as the list of them.
pub struct Sets {
    sets: Vec<StateSet>,
}

// One call lets go of it, wherever a function ends.
impl Drop for Sets {
    fn drop(self) {
        let Sets { sets: _ } = self;
    }
}

impl Model for Sets {
    ghost use Rattle.std.specs.Prelude.{List, Bool};

    ghost Value = { List (List Bool) };

    ghost view = { λ s. s.sets.items };
}

/// Makes the members of another set members of this one, which gets as wide.
///
/// # Errors
/// `Memory` only.
#[tactic(auto, using(crate::proofs::Unions::unions))]
pub fn take_in(set: &mut StateSet, other: &StateSet) -> Result<(), Memory>
    ensures { OnOk result (set.new ≡ union set.old other.now) }
{
    if set.width() < other.width() {
        let mut wide = copy_set(other)?;
        let _grew = wide.join(set);
        *set = wide;
        return Ok(());
    }
    let _grew = set.join(other);
    Ok(())
}

impl Sets {
    /// No sets.
    pub fn new(alloc: Global) -> Sets
        ensures { result ≡ [] }
    {
        Sets {
            sets: Vec::new(alloc),
        }
    }

    /// Puts a set behind the others.
    ///
    /// # Errors
    /// `Memory` only.
    pub fn push(&mut self, set: StateSet) -> Result<(), Memory>
        ensures { OnOk result (self.new ≡ self.old ++ set ∷ []) }
    {
        self.sets.push(set)?;
        Ok(())
    }

    /// How many variables have a set.
    pub fn len(&self) -> usize
        ensures { result ≡ length self.now }
    {
        self.sets.len()
    }

    /// The set of a variable that there is.
    pub fn get(&self, variable: usize) -> &StateSet
        requires { variable < length self.now }
        ensures { result.now ≡ slice_index_or self.now variable [] }
    {
        &self.sets[variable]
    }

    /// Gives a variable another set, where there is such a variable.
    pub fn put(&mut self, variable: usize, set: StateSet)
        ensures { self.new ≡ slice_set self.old variable set }
    {
        if variable < self.sets.len() {
            self.sets[variable] = set;
        }
    }

    /// An equal one.
    ///
    /// # Errors
    /// `Memory` only.
    #[tactic(auto, using(crate::proofs::Rows::rows))]
    pub fn copy(&self, alloc: Global) -> Result<Sets, Memory>
        ensures { IfOk result (λ s. s ≡ self.now) }
    {
        let mut sets = Vec::new(alloc);
        for i in 0..self.sets.len() {
            let copy = copy_set(&self.sets[i])?;
            sets.push(copy)?;
        }
        Ok(Sets { sets })
    }

    /// Takes in the sets of another, variable by variable.
    ///
    /// # Errors
    /// `Memory` only.
    #[tactic(auto, using(crate::proofs::Rows::rows))]
    pub fn take_in(&mut self, other: &Sets) -> Result<(), Memory>
        ensures { OnOk result (self.new ≡ joined_sets self.old other.now) }
    {
        for i in 0..other.sets.len() {
            if i >= self.sets.len() {
                let copy = copy_set(&other.sets[i])?;
                self.sets.push(copy)?;
                continue;
            }
            take_in(&mut self.sets[i], &other.sets[i])?;
        }
        Ok(())
    }
}

/// What is known where two ways meet; a way that isn't reached adds nothing.
///
/// # Errors
/// `Memory` only.
pub fn meet(one: Option<Sets>, other: Option<Sets>) -> Result<Option<Sets>, Memory>
    ensures { IfOk result (λ n. n ≡ joined one other) }
{
    let Some(mut one) = one else {
        return Ok(other);
    };
    let Some(other) = other else {
        return Ok(Some(one));
    };
    one.take_in(&other)?;
    Ok(Some(one))
}

/// The same once more, where the way splits.
///
/// # Errors
/// `Memory` only.
pub fn copy_now(alloc: Global, now: &Option<Sets>) -> Result<Option<Sets>, Memory>
    ensures { IfOk result (λ n. n ≡ now.now) }
{
    match now {
        None => Ok(None),
        Some(sets) => {
            let copy = sets.copy(alloc)?;
            Ok(Some(copy))
        }
    }
}
