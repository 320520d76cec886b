//! Which tables a program has, each with the class of the objects whose elements it has.
//! They are listed by the fields of each class, by methods, and by contexts.

ghost use Rattle.std.specs.Prelude.{◌≡◌, ◌++◌, map, IfOk, OnOk};
ghost use Rattle.ts_tree.specs.View.{state_of};
ghost use Rattle.jv_core.specs.View.{class_of, field_of, loop_of, method_of};
ghost use Rattle.use_flow.specs.inner.Fields.{key_in};
ghost use Rattle.use_flow.specs.inner.Listing as listing;

use crate::arguments::{method_at, params_of};
use crate::fields::{FieldTable, key_of, number};
use crate::scene::{class_at, class_in, slot_class, typestate_of};
use crate::types::method_in;
use crate::{Context, TableKey};
use jv_core::{Core, CoreClass, CoreField, CoreLoop, CoreMethod, CoreSlot, MethodKind};
use mg_text::{List, Memory};
use std::alloc::Global;
use ts_tree::State;

/// A table, and the class of its objects.
#[derive(Clone, Copy)]
pub(crate) struct Entry {
    pub key: TableKey,
    pub class: u32,
}

// Appends a table, where it has objects.
#[tactic(auto, using(crate::proofs::Scenes::scenes))]
pub(crate) fn add(
    entries: &mut List<Entry>,
    key: TableKey,
    class: Option<u32>,
) -> Result<(), Memory>
    ensures { OnOk result (entries.new.items ≡ entries.old.items ++ listing.entry_if key class) }
{
    match class {
        Some(class) => entries.push(Entry { key, class }),
        None => Ok(()),
    }
}

// Appends the tables of these fields.
#[tactic(auto, using(crate::proofs::Adding::fields))]
fn add_fields(
    entries: &mut List<Entry>,
    table: FieldTable,
    fields: &[CoreField],
) -> Result<(), Memory>
    ensures { OnOk result (entries.new.items ≡ entries.old.items ++ listing.field_entries (key_in table) (map field_of fields.now)) }
{
    for field in 0..fields.len() {
        let key = key_of(table, field)?;
        add(entries, key, class_in(fields[field].ty))?;
    }
    Ok(())
}

// Appends the tables of the fields of a class.
#[tactic(auto, using(crate::proofs::Scenes::scenes))]
pub(crate) fn add_fields_of(
    core: &Core,
    entries: &mut List<Entry>,
    table: FieldTable,
    class: u32,
) -> Result<(), Memory>
    ensures { OnOk result (entries.new.items ≡ entries.old.items ++ listing.field_entries (key_in table)
        (listing.fields_of core.now class)) }
{
    match class_at(core, class) {
        Some(class) => add_fields(entries, table, class.fields.as_slice()),
        None => Ok(()),
    }
}

// Appends the tables of the fields in each of these states.
#[tactic(auto, using(crate::proofs::Adding::states))]
fn add_states(
    entries: &mut List<Entry>,
    class: u32,
    fields: &[CoreField],
    states: &[State],
) -> Result<(), Memory>
    ensures { OnOk result (entries.new.items ≡ entries.old.items ++ listing.state_entries class (map field_of fields.now)
        (map state_of states.now)) }
{
    for place in 0..states.len() {
        let state = number(place)?;
        add_fields(entries, FieldTable::State { class, state }, fields)?;
    }
    Ok(())
}

// Appends the tables of a class: those of its fields in each state of its objects.
#[tactic(auto, using(crate::proofs::Scenes::scenes))]
fn add_class(
    core: &Core,
    entries: &mut List<Entry>,
    class_number: u32,
    class: &CoreClass,
) -> Result<(), Memory>
    ensures { OnOk result (entries.new.items ≡ entries.old.items ++ listing.class_entries core.now class_number
        (class_of class.now)) }
{
    let fields = class.fields.as_slice();
    match typestate_of(core, class_number) {
        Some(typestate) => add_states(entries, class_number, fields, typestate.states.as_slice()),
        None => Ok(()),
    }
}

// Appends the tables of all classes.
#[tactic(auto, using(crate::proofs::Adding::classes))]
fn add_classes(core: &Core, entries: &mut List<Entry>) -> Result<(), Memory>
    ensures { OnOk result (entries.new.items ≡ entries.old.items ++ listing.by_classes core.now) }
{
    let classes = core.classes();
    for place in 0..classes.len() {
        let class_number = number(place)?;
        add_class(core, entries, class_number, &classes[place])?;
    }
    Ok(())
}

// Appends the tables of a method: those of the fields where a helper is entered and left.
#[tactic(auto, using(crate::proofs::Adding::parts))]
fn add_method(
    core: &Core,
    entries: &mut List<Entry>,
    method_number: u32,
    method: &CoreMethod,
) -> Result<(), Memory>
    ensures { OnOk result (entries.new.items ≡ entries.old.items ++ listing.method_entries core.now method_number
        (method_of method.now)) }
{
    match method.kind {
        MethodKind::Helper => {
            let entered = FieldTable::Enter {
                method: method_number,
            };
            add_fields_of(core, entries, entered, method.class)?;
            let left = FieldTable::Leave {
                method: method_number,
            };
            add_fields_of(core, entries, left, method.class)
        }
        MethodKind::Main | MethodKind::Static | MethodKind::Protocol => Ok(()),
    }
}

// Appends the tables of all methods.
#[tactic(auto, using(crate::proofs::Adding::methods))]
fn add_methods(core: &Core, entries: &mut List<Entry>) -> Result<(), Memory>
    ensures { OnOk result (entries.new.items ≡ entries.old.items ++ listing.by_methods core.now) }
{
    let methods = core.methods();
    for place in 0..methods.len() {
        let method_number = number(place)?;
        add_method(core, entries, method_number, &methods[place])?;
    }
    Ok(())
}

// Appends the tables of the parameters of a context.
#[tactic(auto, using(crate::proofs::Adding::params))]
pub(crate) fn add_params(
    entries: &mut List<Entry>,
    context: u32,
    params: &[CoreSlot],
) -> Result<(), Memory>
    ensures { OnOk result (entries.new.items ≡ entries.old.items ++ listing.param_entries context (map (λ s. s.ty) params.now)) }
{
    for place in 0..params.len() {
        let param = number(place)?;
        add(
            entries,
            TableKey::Param { context, param },
            class_in(params[place].ty),
        )?;
    }
    Ok(())
}

// Appends the tables of the slots in scope at the head of a loop.
#[tactic(auto, using(crate::proofs::Adding::slots))]
pub(crate) fn add_scope(
    entries: &mut List<Entry>,
    method: &CoreMethod,
    context: u32,
    loop_number: u32,
    scope: &[u32],
) -> Result<(), Memory>
    ensures { OnOk result (entries.new.items ≡ entries.old.items ++ listing.scope_entries (method_of method.now) context loop_number
        scope.now) }
{
    for place in 0..scope.len() {
        let slot = scope[place];
        let key = TableKey::Loop {
            context,
            number: loop_number,
            slot,
        };
        add(entries, key, slot_class(method, slot))?;
    }
    Ok(())
}

// Appends the tables of the own fields at the head of a loop.
#[tactic(auto, using(crate::proofs::Adding::parts))]
pub(crate) fn add_head(
    core: &Core,
    entries: &mut List<Entry>,
    method: &CoreMethod,
    context: u32,
    loop_number: u32,
) -> Result<(), Memory>
    ensures { OnOk result (entries.new.items ≡ entries.old.items ++ listing.head_entries core.now context
        (method_of method.now) loop_number) }
{
    match method.kind {
        MethodKind::Protocol | MethodKind::Helper => {
            let table = FieldTable::Head {
                context,
                number: loop_number,
                slots: method.slots.len(),
            };
            add_fields_of(core, entries, table, method.class)
        }
        MethodKind::Main | MethodKind::Static => Ok(()),
    }
}

// Appends the tables of a loop.
#[tactic(auto, using(crate::proofs::Adding::parts))]
fn add_loop(
    core: &Core,
    entries: &mut List<Entry>,
    method: &CoreMethod,
    context: u32,
    loop_number: u32,
    head: &CoreLoop,
) -> Result<(), Memory>
    ensures { OnOk result (entries.new.items ≡ entries.old.items ++ listing.loop_entries core.now context
        (method_of method.now) loop_number (loop_of head.now)) }
{
    add_scope(entries, method, context, loop_number, head.scope.as_slice())?;
    add_head(core, entries, method, context, loop_number)
}

// Appends the tables of the loops of a context.
#[tactic(auto, using(crate::proofs::Adding::loops))]
fn add_loops(
    core: &Core,
    entries: &mut List<Entry>,
    method: &CoreMethod,
    context: u32,
    loops: &[CoreLoop],
) -> Result<(), Memory>
    ensures { OnOk result (entries.new.items ≡ entries.old.items ++ listing.loops_entries core.now context (method_of method.now)
        (map loop_of loops.now)) }
{
    for place in 0..loops.len() {
        let loop_number = number(place)?;
        add_loop(core, entries, method, context, loop_number, &loops[place])?;
    }
    Ok(())
}

// Appends the tables of a context: those of its parameters, its result and its loops.
#[tactic(auto, using(crate::proofs::Adding::parts))]
fn add_context(
    core: &Core,
    entries: &mut List<Entry>,
    context: u32,
    method: &CoreMethod,
) -> Result<(), Memory>
    ensures { OnOk result (entries.new.items ≡ entries.old.items ++ listing.context_entries core.now context
        (method_of method.now)) }
{
    add_params(entries, context, params_of(method))?;
    add(
        entries,
        TableKey::Result { context },
        class_in(method.result),
    )?;
    add_loops(core, entries, method, context, method.loops.as_slice())
}

// Appends the tables of a context, by its method.
#[tactic(auto, using(crate::proofs::Scenes::scenes))]
fn add_entered(
    core: &Core,
    entries: &mut List<Entry>,
    context_number: u32,
    context: Context,
) -> Result<(), Memory>
    ensures { OnOk result (entries.new.items ≡ entries.old.items ++ listing.entries_at core.now context_number context) }
{
    match method_at(core, method_in(context)) {
        Some(method) => add_context(core, entries, context_number, method),
        None => Ok(()),
    }
}

// Appends the tables of all contexts.
#[tactic(auto, using(crate::proofs::Adding::contexts))]
fn add_contexts(core: &Core, entries: &mut List<Entry>, contexts: &[Context]) -> Result<(), Memory>
    ensures { OnOk result (entries.new.items ≡ entries.old.items ++ listing.by_contexts core.now contexts.now) }
{
    for place in 0..contexts.len() {
        let context_number = number(place)?;
        add_entered(core, entries, context_number, contexts[place])?;
    }
    Ok(())
}

// All tables of a program with these contexts.
#[tactic(auto, using(crate::proofs::Adding::whole))]
pub(crate) fn entries_of(
    alloc: Global,
    core: &Core,
    contexts: &[Context],
) -> Result<List<Entry>, Memory>
    ensures { IfOk result (λ l. l.items ≡ listing.entries_in core.now contexts.now) }
{
    let mut entries = List::new(alloc);
    add_classes(core, &mut entries)?;
    add_methods(core, &mut entries)?;
    add_contexts(core, &mut entries, contexts)?;
    Ok(entries)
}
