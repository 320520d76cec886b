//! A table of hashes, in which it is noted where the names of methods and labels stand.
//! Nothing rests on what it says: it is only tried.

ghost use Rattle.std.specs.Prelude.{◌<◌};

use mg_text::Memory;
use std::alloc::Global;
use ts_tree::{Method, Target, To, Typestate};

// How many slots in a row a name is looked for.
const TRIES: usize = 64;

const HALF: u64 = 0x1_0000_0000;

// The number of the list of methods at a place of the first or the second typestate.
pub(crate) fn list_of(side: u64, at: To) -> u64 {
    match at {
        To::End => side,
        To::State(n) => u64::from(n).wrapping_mul(2).wrapping_add(side),
    }
}

// The number of the list of labels of a method.
pub(crate) fn list_under(list: u64, name: &str) -> u64 {
    let mut hash = list.wrapping_add(1).wrapping_mul(0x9e37_79b9_7f4a_7c15);
    for byte in name.as_bytes() {
        hash = (hash ^ u64::from(*byte)).wrapping_mul(0x0000_0100_0000_01b3);
    }
    (hash ^ (hash >> 29)).wrapping_mul(0xbf58_476d_1ce4_e5b9)
}

// The slot of a hash, so many slots behind the first one for it.
fn slot_of(count: usize, hash: u64, step: usize) -> usize
    requires { 0 < count }
    ensures { result < count }
{
    ((hash % HALF) as usize).wrapping_add(step) % count
}

// Notes where a name of this list stands, if one of its slots is free. A slot holds one half of the
// hash, and a number that is one more than the place.
fn note(slots: &mut [u64], list: u64, name: &str, place: u64) {
    if slots.is_empty() {
        return;
    }
    let hash = list_under(list, name);
    let kept = (hash - hash % HALF) | (place.wrapping_add(1) % HALF);
    for step in 0..TRIES {
        let slot = slot_of(slots.len(), hash, step);
        if slots[slot] == 0 {
            slots[slot] = kept;
            return;
        }
    }
}

// Where a name of this list was noted to stand, if it was.
pub(crate) fn noted(slots: &[u64], list: u64, name: &str) -> usize {
    if slots.is_empty() {
        return usize::MAX;
    }
    let hash = list_under(list, name);
    for step in 0..TRIES {
        let kept = slots[slot_of(slots.len(), hash, step)];
        if kept == 0 {
            return usize::MAX;
        }
        if kept / HALF == hash / HALF {
            return ((kept % HALF) as usize).wrapping_sub(1);
        }
    }
    usize::MAX
}

// Notes where the labels of these methods stand, and of the first typestate's the methods too.
fn note_methods(slots: &mut [u64], side: u64, list: u64, methods: &[Method]) {
    let mut place: u64 = 0;
    for method in methods {
        let name = method.name.as_str();
        if side == 0 {
            note(slots, list, name, place);
        }
        if let Target::ByAnswer(branches) = &method.target {
            let labels = list_under(list, name);
            let mut behind: u64 = 0;
            for branch in branches.as_slice() {
                note(slots, labels, branch.label.as_str(), behind);
                behind = behind.wrapping_add(1);
            }
        }
        place = place.wrapping_add(1);
    }
}

fn note_states(slots: &mut [u64], side: u64, t: &Typestate) {
    let mut number: u32 = 0;
    for state in t.states.as_slice() {
        note_methods(
            slots,
            side,
            list_of(side, To::State(number)),
            state.methods.as_slice(),
        );
        number = number.wrapping_add(1);
    }
}

// Notes where the names stand that are looked for: the methods of the first typestate, and the labels of both.
pub(crate) fn note_names(slots: &mut [u64], a: &Typestate, b: &Typestate) {
    note_states(slots, 0, a);
    note_states(slots, 1, b);
}

// How many methods and labels there are.
fn count_names(t: &Typestate) -> usize {
    let mut count: usize = 0;
    for state in t.states.as_slice() {
        for method in state.methods.as_slice() {
            count = count.wrapping_add(1);
            if let Target::ByAnswer(branches) = &method.target {
                count = count.wrapping_add(branches.len());
            }
        }
    }
    count
}

// A table of the names of two typestates, with room for each.
pub(crate) fn table(alloc: Global, a: &Typestate, b: &Typestate) -> Result<Vec<u64>, Memory> {
    let count = count_names(a).wrapping_add(count_names(b));
    let mut slots = vec![in alloc; 0u64; count.wrapping_mul(2).wrapping_add(1)]?;
    note_names(slots.as_mut_slice(), a, b);
    Ok(slots)
}
