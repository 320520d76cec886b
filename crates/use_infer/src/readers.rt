//! Which contexts read each table.
//! Contexts and keys stand by their numbers.

ghost use Rattle.std.specs.Prelude.{◌≡◌, [], length, map, replicate, IfOk, OnOk};
ghost use Rattle.use_flow.specs.View.{contexts_of, reached_of, AreFor};
ghost use Rattle.use_infer.specs.inner.Readers.{with_reader, noted, all_readers, lists_of, readers_at};

use jv_core::Core;
use mg_text::Memory;
use std::alloc::Global;
use use_flow::{Context, TableKey, Tables, reads_in};

/// By the numbers of keys: the numbers of the contexts that read the table.
#[derive(Drop)]
pub(crate) struct Readers {
    lists: Vec<Vec<usize>>,
}

// So many lists without readers.
fn no_readers(alloc: Global, count: usize) -> Result<Vec<Vec<usize>>, Memory>
    ensures { IfOk result (λ v. map (λ l. l.items) v.items ≡ replicate count []) }
{
    let mut lists = Vec::new(alloc);
    for _number in 0..count {
        lists.push(Vec::new(alloc))?;
    }
    Ok(lists)
}

// One more reader of the key of a number.
fn note(lists: &mut Vec<Vec<usize>>, number: usize, reader: usize) -> Result<(), Memory>
    ensures { OnOk result (map (λ l. l.items) lists.new.items ≡ with_reader number reader (map (λ l. l.items) lists.old.items)) }
{
    if number < lists.len() {
        let list = &mut lists[number];
        list.push(reader)?;
    }
    Ok(())
}

// One more reader of each of these keys.
fn note_all(
    tables: &Tables,
    lists: &mut Vec<Vec<usize>>,
    keys: &[TableKey],
    reader: usize,
) -> Result<(), Memory>
    ensures { OnOk result (map (λ l. l.items) lists.new.items ≡ noted tables.now.keys.keys reader keys.now
        (map (λ l. l.items) lists.old.items)) }
{
    for key in keys {
        match tables.number_of(*key) {
            Some(number) => note(lists, number, reader)?,
            None => continue,
        }
    }
    Ok(())
}

// The readers of all tables.
pub(crate) fn all_readers(
    alloc: Global,
    core: &Core,
    tables: &Tables,
    contexts: &[Context],
) -> Result<Readers, Memory>
    requires made { AreFor core.now tables.now }
    ensures { IfOk result (λ r. lists_of r ≡ all_readers core.now (reached_of tables.now) tables.now.keys.keys
        (length tables.now.sets.items) contexts.now) }
{
    let runs = tables.runs(alloc, core)?;
    let mut lists = no_readers(alloc, tables.count())?;
    for number in 0..contexts.len() {
        let keys = reads_in(alloc, core, tables, &runs, contexts[number])?;
        note_all(tables, &mut lists, keys.as_slice(), number)?;
    }
    Ok(Readers { lists })
}

impl Readers {
    // The numbers of the contexts that read the table of a key.
    pub(crate) fn of(&self, tables: &Tables, key: TableKey) -> &[usize]
        ensures { result.now ≡ readers_at tables.now.keys.keys (lists_of self.now) key }
    {
        let Some(number) = tables.number_of(key) else {
            return &[];
        };
        if number < self.lists.len() {
            return self.lists[number].as_slice();
        }
        &[]
    }
}
