//! Which methods are offered on a variable that may be in the elements of a set.

ghost use Rattle.std.specs.Prelude.{◌≡◌, ◌++◌, map, IfOk, OnOk};
ghost use Rattle.std.specs.List.{list_any, list_all};
ghost use Rattle.std.specs.Str.{bytes_eq};
ghost use Rattle.mg_sets.specs.Sets.{members};
ghost use Rattle.ts_tree.specs.View.{method_of, state_of};
ghost use Rattle.lsp_offers.specs.Items.{methods_at, offered, item_of, items_of};
ghost use Rattle.lsp_offers.specs.inner.Seen.{seen};
ghost use Rattle.lsp_offers.specs.inner.Named.{names_of, tables_of, is_chosen_by, chosen_by};

use crate::calls::signature;
use crate::firsts::{By, is_met, note, put_firsts};
use lsp_messages::Item;
use mg_sets::StateSet;
use mg_text::{Memory, Names};
use std::alloc::Global;
use ts_tree::{Method, State};

// The methods that an element of a set offers.
fn methods_at(states: &[State], element: usize) -> &[Method]
    ensures { map method_of result.now ≡ methods_at (map state_of states.now) element }
{
    if element < 3 {
        return &[];
    }
    match states.get(element - 3) {
        Some(state) => state.methods.as_slice(),
        None => &[],
    }
}

// The names of methods.
fn names_of(alloc: Global, methods: &[Method]) -> Result<Names, Memory>
    ensures { IfOk result (λ n. n ≡ names_of (map method_of methods.now)) }
{
    let mut names = Names::new(alloc);
    for method in methods {
        let _fresh = note(&mut names, method.name.as_str())?;
    }
    Ok(names)
}

// The names of what each element of a set offers.
fn tables_of(alloc: Global, states: &[State], set: &StateSet) -> Result<Vec<Names>, Memory>
    ensures { IfOk result (λ v. v.items ≡ tables_of (map state_of states.now) (members set.now)) }
{
    let mut tables = Vec::new(alloc);
    for element in set.iter() {
        let names = names_of(alloc, methods_at(states, element))?;
        tables.push(names)?;
    }
    Ok(tables)
}

// Whether all tables have a name.
fn all_have(tables: &[Names], name: &str) -> bool
    ensures { result ≡ list_all (list_any (bytes_eq name.now)) tables.now }
{
    for names in tables {
        if !is_met(names, name) {
            return false;
        }
    }
    true
}

// What all elements of a set offer together, each name once.
fn offered_in<'a>(
    alloc: Global,
    states: &'a [State],
    set: &StateSet,
) -> Result<Vec<&'a Method>, Memory>
    ensures { IfOk result (λ v. seen v.items ≡ offered (map state_of states.now) set.now) }
{
    let mut met = Names::new(alloc);
    let mut found = Vec::new(alloc);
    for element in set.iter() {
        put_firsts(By::Name, &mut met, &mut found, methods_at(states, element))?;
    }
    Ok(found)
}

// The item of a method.
fn item_of(alloc: Global, always: bool, method: &Method) -> Result<Item, Memory>
    ensures { IfOk result (λ i. i ≡ item_of always (method_of method.now)) }
{
    let signature = signature(alloc, method)?;
    let name = method.name.copy()?;
    Ok(Item {
        name,
        signature,
        always,
    })
}

// Whether a method is among those that all tables have, or among the others.
fn is_chosen(tables: &[Names], always: bool, method: &Method) -> bool
    ensures { result ≡ is_chosen_by tables.now always (method_of method.now) }
{
    let all = all_have(tables, method.name.as_str());
    if always { all } else { !all }
}

// Appends the items of the methods that all tables have, or of the others.
fn put_chosen(
    alloc: Global,
    items: &mut Vec<Item>,
    tables: &[Names],
    always: bool,
    methods: &[&Method],
) -> Result<(), Memory>
    ensures { OnOk result (items.new.items ≡ items.old.items ++ chosen_by tables.now always (seen methods.now)) }
{
    for method in methods {
        if !is_chosen(tables, always, method) {
            continue;
        }
        let item = item_of(alloc, always, method)?;
        items.push(item)?;
    }
    Ok(())
}

/// The methods that are offered on a variable that may be in the elements of a set, of which these are the states.
///
/// # Errors
/// `Memory` only.
pub(crate) fn items_of(alloc: Global, states: &[State], set: &StateSet) -> Result<Vec<Item>, Memory>
    ensures { IfOk result (λ v. v.items ≡ items_of (map state_of states.now) set.now) }
{
    let tables = tables_of(alloc, states, set)?;
    let methods = offered_in(alloc, states, set)?;
    let mut items = Vec::new(alloc);
    put_chosen(
        alloc,
        &mut items,
        tables.as_slice(),
        true,
        methods.as_slice(),
    )?;
    put_chosen(
        alloc,
        &mut items,
        tables.as_slice(),
        false,
        methods.as_slice(),
    )?;
    Ok(items)
}
