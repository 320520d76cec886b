//! A context waits until it is followed, and waits again where a table that it reads has grown.
//! Each growth is forced, so that the tables stay within all closed tables.

ghost use Rattle.std.specs.Prelude.{◌≡◌, ◌<◌, ◌≤◌, ◌+◌, ℕ, List, Bool, false, true, length, replicate, slice_get, slice_index_or};
ghost use Rattle.std.specs.Prelude.{slice_set, Some, IfOk, OnOk, MatchOption};
ghost use Rattle.mg_sets.specs.Sets.{has};
ghost use Rattle.use_rules.specs.Elements.{marked};
ghost use Rattle.use_rules.specs.Keys.{AreReached};
ghost use Rattle.use_rules.specs.Tables.{Least};
ghost use Rattle.use_flow.specs.View.{tables_of, reached_of, contexts_of, AreFor};
ghost use Rattle.use_infer.specs.Bound.{most_follows};
ghost use Rattle.use_infer.specs.inner.Growing.{IsBelow};
ghost use Rattle.use_infer.specs.inner.Readers.{all_readers, lists_of};
ghost use Rattle.use_infer.specs.inner.Waiting.{left, Waiting};

use crate::readers::{Readers, all_readers as gather};
use jv_core::Core;
use mg_text::Memory;
use std::alloc::Global;
use use_flow::{Context, Follows, Tables, flow};

// A context waits.
fn wake_one(due: &mut [bool], reader: usize)
    ensures { due.new ≡ slice_set due.old reader true }
{
    if reader < due.len() {
        due[reader] = true;
    }
}

// These contexts wait.
fn wake(due: &mut [bool], readers: &[usize])
    ensures { due.new ≡ marked readers.now due.old }
{
    for reader in readers {
        wake_one(due, *reader);
    }
}

// The next context that waits: from a number on, and then from the first on.
fn next_due(due: &[bool], from: usize) -> Option<usize>
    ensures { MatchOption result ((i : ℕ) → has due.now i ≡ false) (λ i. has due.now i ≡ true) }
{
    for number in from..due.len() {
        if due[number] {
            return Some(number);
        }
    }
    for place in 0..due.len() {
        if due[place] {
            return Some(place);
        }
    }
    None
}

// Where a context that waits is looked for: at the first of those that were woken, if there are any.
fn first_or(woken: &[usize], otherwise: usize) -> usize
    ensures { result ≡ slice_index_or woken.now 0 otherwise }
{
    if woken.is_empty() {
        return otherwise;
    }
    woken[0]
}

// A context is followed, and waits no more, unless a table that it reads grows by it. The answer says
// where the next one is looked for: where something was woken, since that is how objects go on.
fn follow(
    alloc: Global,
    core: &Core,
    tables: &mut Tables,
    due: &mut [bool],
    readers: &Readers,
    number: usize,
    context: Context,
    follows: &mut Follows,
) -> Result<usize, Memory>
    requires waits { Waiting core.now tables.old due.old }
    requires is_due { has due.old number ≡ true }
    requires at { slice_get (contexts_of tables.old) number ≡ Some context }
    requires readers { lists_of readers.now ≡ all_readers core.now (reached_of tables.old) tables.old.keys.keys
        (length tables.old.sets.items) (contexts_of tables.old) }
    ensures waits { OnOk result (Waiting core.now tables.new due.new) }
    ensures contexts { OnOk result (contexts_of tables.new ≡ contexts_of tables.old) }
    ensures readers { OnOk result (lists_of readers.now ≡ all_readers core.now (reached_of tables.new) tables.new.keys.keys
        (length tables.new.sets.items) (contexts_of tables.new)) }
    ensures falls { OnOk result (left core.now tables.new due.new < left core.now tables.old due.old) }
    ensures pays { OnOk result (follows.new + left core.now tables.new due.new ≤ follows.old + left core.now tables.old
        due.old) }
    ensures most { follows.new ≤ follows.old + left core.now tables.old due.old }
    ensures rises { follows.old ≤ follows.new }
{
    due[number] = false;
    let met = flow(alloc, core, tables, context, follows)?;
    let mut next = number;
    for out in met.outs.as_slice() {
        if !tables.join(out.key, &out.set) {
            continue;
        }
        let woken = readers.of(tables, out.key);
        wake(due, woken);
        next = first_or(woken, next);
    }
    Ok(next)
}

// Contexts are followed until none waits.
fn settle(
    alloc: Global,
    core: &Core,
    tables: &mut Tables,
    due: &mut [bool],
    contexts: &[Context],
    follows: &mut Follows,
) -> Result<(), Memory>
    requires waits { Waiting core.now tables.old due.old }
    requires known { contexts.now ≡ contexts_of tables.old }
    ensures made { OnOk result (AreFor core.now tables.new) }
    ensures least { OnOk result (Least core.now (reached_of tables.new) (tables_of tables.new)) }
    ensures most { follows.new ≤ follows.old + left core.now tables.old due.old }
    ensures rises { follows.old ≤ follows.new }
{
    let readers = gather(alloc, core, tables, contexts)?;
    let mut from = 0;
    'waiting: loop {
        match next_due(due, from) {
            None => return Ok(()),
            Some(number) => {
                let context = contexts[number];
                from = follow(alloc, core, tables, due, &readers, number, context, follows)?;
            }
        }
    }
}

// So many contexts that wait.
fn all_due(alloc: Global, count: usize) -> Result<Vec<bool>, Memory>
    ensures { IfOk result (λ v. v.items ≡ replicate count true) }
{
    let due = vec![in alloc; true; count]?;
    Ok(due)
}

/// The least tables of a program: all that flows out under them is within them, and so it is under
/// no smaller ones. Contexts are followed a bounded number of times, also where memory lacks.
///
/// # Errors
/// `Memory` only.
pub fn infer(alloc: Global, core: &Core, follows: &mut Follows) -> Result<Tables, Memory>
    ensures made { IfOk result (λ t. AreFor core.now t) }
    ensures least { IfOk result (λ t. Least core.now (reached_of t) (tables_of t)) }
    ensures most { (reached : List (List Bool)) → AreReached core.now reached → follows.new ≤ follows.old + most_follows
        core.now reached }
    ensures rises { follows.old ≤ follows.new }
{
    let mut tables = Tables::new(alloc, core)?;
    let all = Vec::from_slice(alloc, tables.contexts())?;
    let mut due = all_due(alloc, all.len())?;
    settle(
        alloc,
        core,
        &mut tables,
        due.as_mut_slice(),
        all.as_slice(),
        follows,
    )?;
    Ok(tables)
}
