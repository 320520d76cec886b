//! Where protocols begin: their numbers by their names, and what their beginnings lead to where they
//! only go on as others.

ghost use Rattle.std.specs.Prelude.{◌≡◌, ◌<◌, ℕ, length, map, IfOk};
ghost use Rattle.std.specs.HashMap.{get_by_text};
ghost use Rattle.mg_text.specs.Call.{Name};
ghost use Rattle.scr_tree.specs.Tree.{other};
ghost use Rattle.scr_tree.specs.View.{part_of};
ghost use Rattle.scr_tree.specs.Local.{tree_of};
ghost use Rattle.scr_trace.specs.declared.arrow.Hop.TheVariants as hops;
ghost use Rattle.scr_trace.specs.inner.Laying.{number_among, number_in, entry_at, IsPlain, Ends, Settled};
ghost use Rattle.scr_trace.specs.inner.Entries.{IsWritten};

use crate::arrow::Hop;
use mg_text::Memory;
use scr_tree::{Local, Part};
use std::alloc::Global;
use std::collections::HashMap;

/// Of each protocol's name its number, counted from 0 on from the last one of the text.
pub fn numbers_of(alloc: Global, local: &Local) -> Result<HashMap<String, u32>, Memory>
    ensures { IfOk result (λ m. (q : Name) → get_by_text m q ≡ number_in (tree_of local.now) q) }
{
    let others = local.others().as_slice();
    let Ok(number) = u32::try_from(others.len()) else {
        return Err(Memory);
    };
    let name = String::from_str(alloc, local.name().as_str())?;
    let mut numbers = numbers_behind(alloc, others)?;
    numbers.insert(name, number)?;
    Ok(numbers)
}

// The numbers of the protocols behind the first.
fn numbers_behind(alloc: Global, others: &[Part]) -> Result<HashMap<String, u32>, Memory>
    ensures { IfOk result (λ m. (q : Name) → get_by_text m q ≡ number_among (map other (map part_of others.now)) q) }
{
    let mut numbers = HashMap::new(alloc);
    let mut number: u32 = 0;
    let mut i = others.len();
    while i > 0 {
        i -= 1;
        let name = String::from_str(alloc, others[i].name.as_str())?;
        numbers.insert(name, number)?;
        let Some(next) = number.checked_add(1) else {
            return Err(Memory);
        };
        number = next;
    }
    Ok(numbers)
}

/// Writes to each entry where it leads to at last, so that none leads to another. Each is passed
/// twice at most.
pub fn settle(entries: &mut [Hop])
    ensures { Settled entries.old entries.new }
{
    let count = entries.len();
    let mut i = 0;
    while i < count {
        let end = end_of(entries, i);
        write_along(entries, i, end);
        i += 1;
    }
}

// Where the entry of this number leads at last. Those that lead round and round lead to the end.
fn end_of(entries: &[Hop], from: usize) -> Hop
    ensures plain { IsPlain result }
    ensures last { (end : Hop) → Ends entries.now (hops.Part from) end → result ≡ end }
{
    let mut at = from;
    let mut left = entries.len();
    'along: loop {
        let hop = entry_at(entries, at);
        let Hop::Part(number) = hop else {
            return hop;
        };
        if left == 0 {
            return Hop::End;
        }
        left -= 1;
        at = number as usize;
    }
}

// The entry of this number, if there is one, or the end.
fn entry_at(entries: &[Hop], number: usize) -> Hop
    ensures { result ≡ entry_at number entries.now }
{
    match entries.get(number) {
        Some(hop) => *hop,
        None => Hop::End,
    }
}

// Writes where the entries lead to that lead on from this one.
fn write_along(entries: &mut [Hop], from: usize, end: Hop)
    requires { IsPlain end }
    ensures written { (k : ℕ) → IsWritten entries.old entries.new from end k }
    ensures first { from < length entries.old → entry_at from entries.new ≡ end }
    ensures as_many { length entries.new ≡ length entries.old }
{
    let mut at = from;
    let mut left = entries.len();
    while left > 0 && at < entries.len() {
        left -= 1;
        let hop = entries[at];
        entries[at] = end;
        match hop {
            Hop::Part(number) => at = number as usize,
            Hop::State(_) | Hop::Loop(_) | Hop::End => return,
        }
    }
}
