//! Which tables a context asks for.
//! What is named is found by one walk over the body, and each key is listed once.

ghost use Rattle.std.specs.Prelude.{◌≡◌, ◌++◌, Some, map, IfOk, OnOk};
ghost use Rattle.jv_core.specs.View.{loop_of, method_of};
ghost use Rattle.use_rules.specs.Reads.{reads, result_class};
ghost use Rattle.use_flow.specs.inner.Reading as reading;
ghost use Rattle.use_flow.specs.Read.{AreRead};
ghost use Rattle.use_flow.specs.Runs.{starts_of, starts_in};
ghost use Rattle.use_flow.specs.View.{reached_of, AreFor};

use crate::arguments::{method_at, params_of};
use crate::classed::{Entry, add, add_fields_of, add_head, add_params, add_scope};
use crate::fields::{FieldTable, number};
use crate::named::named_by;
use crate::rising::rising;
use crate::runs::Runs;
use crate::scene::class_in;
use crate::types::method_in;
use crate::{Context, TableKey, Tables};
use jv_core::{Core, CoreLoop, CoreMethod, MethodKind};
use mg_text::{List, Memory};
use std::alloc::Global;

// Appends the fields that the method of an object in a state begins with.
fn add_state(
    core: &Core,
    entries: &mut List<Entry>,
    context: Context,
    method: &CoreMethod,
) -> Result<(), Memory>
    ensures { OnOk result (entries.new.items ≡ entries.old.items ++ reading.state_entries core.now context
        (method_of method.now)) }
{
    match context {
        Context::Protocol { class, state, .. } => {
            let table = FieldTable::State { class, state };
            add_fields_of(core, entries, table, method.class)
        }
        Context::Plain { .. } => Ok(()),
    }
}

// Appends the fields that a helper begins with.
fn add_enter(
    core: &Core,
    entries: &mut List<Entry>,
    context: Context,
    method: &CoreMethod,
) -> Result<(), Memory>
    ensures { OnOk result (entries.new.items ≡ entries.old.items ++ reading.enter_entries core.now context
        (method_of method.now)) }
{
    match context {
        Context::Plain {
            method: method_number,
        } => match method.kind {
            MethodKind::Helper => {
                let table = FieldTable::Enter {
                    method: method_number,
                };
                add_fields_of(core, entries, table, method.class)
            }
            MethodKind::Main | MethodKind::Static | MethodKind::Protocol => Ok(()),
        },
        Context::Protocol { .. } => Ok(()),
    }
}

// The class of the objects that a method gives.
#[tactic(auto, using(crate::proofs::Scenes::scenes))]
fn result_class(core: &Core, method: u32) -> Option<u32>
    ensures { result ≡ result_class core.now method }
{
    match method_at(core, method) {
        Some(method) => class_in(method.result),
        None => None,
    }
}

// Appends the results of the contexts from one on up to another.
#[tactic(auto, using(crate::proofs::Asking::runs))]
fn add_run(entries: &mut List<Entry>, from: u32, to: u32, class: u32) -> Result<(), Memory>
    ensures { OnOk result (entries.new.items ≡ entries.old.items ++ reading.run_of (Some class) from to) }
{
    for context in from..to {
        add(entries, TableKey::Result { context }, Some(class))?;
    }
    Ok(())
}

// Appends the results of the contexts of a method, where it gives objects.
#[tactic(auto, using(crate::proofs::Asking::results))]
fn add_result(
    core: &Core,
    entries: &mut List<Entry>,
    runs: &Runs,
    method: u32,
) -> Result<(), Memory>
    ensures { OnOk result (entries.new.items ≡ entries.old.items ++ reading.result_entry core.now (starts_of runs.now) 0 method) }
{
    let Some(class) = result_class(core, method) else {
        return Ok(());
    };
    let from = runs.start_of(method as usize);
    let to = runs.start_of(method as usize + 1);
    add_run(entries, from, to, class)
}

// Appends the results of all contexts of these methods.
#[tactic(auto, using(crate::proofs::Asking::listing))]
fn add_results(
    core: &Core,
    entries: &mut List<Entry>,
    runs: &Runs,
    methods: &[u32],
) -> Result<(), Memory>
    ensures { OnOk result (entries.new.items ≡ entries.old.items ++ reading.result_entries core.now
        (starts_of runs.now) methods.now) }
{
    for method in methods {
        add_result(core, entries, runs, *method)?;
    }
    Ok(())
}

// Appends the fields as a helper leaves them.
#[tactic(auto, using(crate::proofs::Scenes::scenes))]
fn add_leave(core: &Core, entries: &mut List<Entry>, method_number: u32) -> Result<(), Memory>
    ensures { OnOk result (entries.new.items ≡ entries.old.items ++ reading.leave_entry core.now 0 method_number) }
{
    let Some(method) = method_at(core, method_number) else {
        return Ok(());
    };
    match method.kind {
        MethodKind::Helper => {
            let table = FieldTable::Leave {
                method: method_number,
            };
            add_fields_of(core, entries, table, method.class)
        }
        MethodKind::Main | MethodKind::Static | MethodKind::Protocol => Ok(()),
    }
}

// Appends the fields as these helpers leave them.
#[tactic(auto, using(crate::proofs::Asking::listing))]
fn add_leaves(core: &Core, entries: &mut List<Entry>, methods: &[u32]) -> Result<(), Memory>
    ensures { OnOk result (entries.new.items ≡ entries.old.items ++ reading.leave_entries core.now methods.now) }
{
    for method in methods {
        add_leave(core, entries, *method)?;
    }
    Ok(())
}

// Appends what is known at the head of a loop.
#[tactic(auto, using(crate::proofs::Asking::parts))]
fn add_loop(
    alloc: Global,
    core: &Core,
    entries: &mut List<Entry>,
    method: &CoreMethod,
    context: u32,
    loop_number: u32,
    head: &CoreLoop,
) -> Result<(), Memory>
    ensures { OnOk result (entries.new.items ≡ entries.old.items ++ reading.loop_entry core.now context
        (method_of method.now) loop_number (loop_of head.now)) }
{
    let scope = rising(alloc, head.scope.as_slice())?;
    add_scope(entries, method, context, loop_number, scope.as_slice())?;
    add_head(core, entries, method, context, loop_number)
}

// Appends what is known at the heads of these loops.
#[tactic(auto, using(crate::proofs::Asking::listing))]
fn add_loops(
    alloc: Global,
    core: &Core,
    entries: &mut List<Entry>,
    method: &CoreMethod,
    context: u32,
    loops: &[CoreLoop],
) -> Result<(), Memory>
    ensures { OnOk result (entries.new.items ≡ entries.old.items ++ reading.loop_entries core.now context (method_of method.now)
        (map loop_of loops.now)) }
{
    for place in 0..loops.len() {
        let loop_number = number(place)?;
        add_loop(
            alloc,
            core,
            entries,
            method,
            context,
            loop_number,
            &loops[place],
        )?;
    }
    Ok(())
}

// Appends what a method reads in a context of this number.
#[tactic(auto, using(crate::proofs::Asking::whole))]
fn add_read(
    alloc: Global,
    core: &Core,
    entries: &mut List<Entry>,
    runs: &Runs,
    here: u32,
    context: Context,
    method: &CoreMethod,
) -> Result<(), Memory>
    ensures { OnOk result (entries.new.items ≡ entries.old.items ++ reading.read_entries core.now (starts_of runs.now) here context
        (method_of method.now)) }
{
    let named = named_by(alloc, method.body.as_slice())?;
    add_state(core, entries, context, method)?;
    add_params(entries, here, params_of(method))?;
    add_results(core, entries, runs, named.as_slice())?;
    add_enter(core, entries, context, method)?;
    add_leaves(core, entries, named.as_slice())?;
    add_loops(alloc, core, entries, method, here, method.loops.as_slice())
}

// The keys of these tables.
#[tactic(auto, using(crate::proofs::Asking::keyed))]
fn keys_of(alloc: Global, entries: &[Entry]) -> Result<List<TableKey>, Memory>
    ensures { IfOk result (λ l. l.items ≡ map (λ e. e.key) entries.now) }
{
    let mut keys = List::new(alloc);
    for entry in entries {
        keys.push(entry.key)?;
    }
    Ok(keys)
}

/// The keys that a context reads, in the order of their variants and then by number, each once.
/// `runs` are those of the tables.
///
/// # Errors
/// `Memory` only.
#[tactic(auto, using(crate::proofs::Asked::asked_for))]
pub fn reads_in(
    alloc: Global,
    core: &Core,
    tables: &Tables,
    runs: &Runs,
    context: Context,
) -> Result<List<TableKey>, Memory>
    requires made { AreFor core.now tables.now }
    requires runs { starts_of runs.now ≡ starts_in core.now (reached_of tables.now) }
    ensures { IfOk result (λ l. l.items ≡ reads core.now (reached_of tables.now) context) }
{
    let Some(method) = method_at(core, method_in(context)) else {
        return Ok(List::new(alloc));
    };
    let here = tables.context_number(context)?;
    let mut entries = List::new(alloc);
    add_read(alloc, core, &mut entries, runs, here, context, method)?;
    keys_of(alloc, entries.as_slice())
}

/// The keys that a context reads, in the order of their variants and then by number, each once: the
/// fields that it begins with, its own parameters, the results of all contexts of the methods that
/// it names, the fields that the helpers among them leave, and what is known at the heads of its
/// loops.
///
/// # Errors
/// `Memory` only.
#[tactic(auto, using(crate::proofs::Asked::asked_for))]
pub fn reads(alloc: Global, core: &Core, context: Context) -> Result<List<TableKey>, Memory>
    ensures { IfOk result (λ l. AreRead core.now context l.items) }
{
    let tables = Tables::new(alloc, core)?;
    let runs = tables.runs(alloc, core)?;
    reads_in(alloc, core, &tables, &runs, context)
}
