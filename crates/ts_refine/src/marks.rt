//! The numbers of pairs of places, and marks of numbers.

ghost use Rattle.std.specs.Prelude.{◌≡◌, ℕ, ◌<◌, ◌≤◌, ◌+◌, ◌*◌, ◌^◌, false, IfSome, IfOk, OnOk, OnErr};
ghost use Rattle.ts_refine.specs.inner.Marking.{place_number, number, is_marked, marked};

use crate::Pair;
use mg_sets::StateSet;
use mg_text::Memory;
use std::alloc::Global;
use std::collections::HashSet;
use ts_tree::To;

// The number of a place of so many states, the end after them; a state past them has none.
#[inline(always)]
fn place_number(count: usize, at: To) -> Option<usize>
    ensures value { result ≡ place_number count at }
    ensures bound { IfSome result (λ n. n ≤ count) }
{
    match at {
        To::End => Some(count),
        To::State(n) => {
            let n = n as usize;
            if n < count { Some(n) } else { None }
        }
    }
}

// The number of a pair of places of so many states each.
#[inline(always)]
pub(crate) fn number(a: usize, b: usize, pair: Pair) -> Option<usize>
    requires a { a < 2 ^ 32 }
    requires b { b < 2 ^ 32 }
    ensures value { result ≡ number a b pair }
    ensures bound { IfSome result (λ n. n < (a + 1) * (b + 1)) }
{
    let i = place_number(a, pair.a)?;
    let j = place_number(b, pair.b)?;
    Some(i * (b + 1) + j)
}

// So many numbers at most have a bit each: these bits take 2 MiB.
const NEAR: usize = 0x100_0000;

/// Which numbers are marked: a bit for each number below the width of the one set, and the numbers
/// themselves from there on, so that room is taken for what is marked, and not for all pairs.
#[derive(Drop)]
pub(crate) struct Marks {
    near: StateSet,
    far: HashSet<usize>,
}

impl Marks {
    // No number is marked. Room is made for those of pairs of places of so many states each.
    pub(crate) fn new(alloc: Global, a: usize, b: usize) -> Result<Marks, Memory>
        ensures { IfOk result (λ m. (n : ℕ) → is_marked m n ≡ false) }
    {
        let width = a.saturating_add(1).saturating_mul(b.saturating_add(1));
        match StateSet::new(alloc, width.min(NEAR)) {
            Ok(near) => Ok(Marks {
                near,
                far: HashSet::new(alloc),
            }),
            Err(_) => Err(Memory),
        }
    }

    // Whether a number is marked.
    pub(crate) fn has(&self, n: usize) -> bool
        ensures { result ≡ is_marked self.now n }
    {
        if n < self.near.width() {
            return self.near.has(n);
        }
        self.far.contains(&n)
    }

    // Marks a number, if there is one.
    pub(crate) fn mark(&mut self, number: Option<usize>) -> Result<(), Memory>
        ensures ok { OnOk result ((k : ℕ) → is_marked self.new k ≡ marked (is_marked self.old) number k) }
        ensures err { OnErr result ((k : ℕ) → is_marked self.new k ≡ is_marked self.old k) }
    {
        let Some(n) = number else {
            return Ok(());
        };
        if n < self.near.width() {
            self.near.add(n);
            return Ok(());
        }
        self.far.insert(n)?;
        Ok(())
    }
}
