//! The own fields of the object that a method runs on, and the tables that they flow into.
//! A field that has no objects has no table.

ghost use Rattle.std.specs.Prelude.{◌≡◌, ◌+◌, ◌++◌, ◌∷◌, [], slice_index_or, IfOk, OnOk};
ghost use Rattle.use_flow.specs.inner.Fields.{key_in, outs_in};
ghost use Rattle.use_flow.specs.inner.Followed.{seen, field_outs, with_fields};

use crate::scene::{Scene, class_in};
use crate::{Out, TableKey};
use mg_sets::StateSet;
use mg_text::{List, Memory};
use std::alloc::Global;
use use_elements::{Sets, copy_set, empty_set};

/// The tables of the fields of an object: in a state, where a helper is entered or left, or at the
/// head of a loop, where fields stand behind so many slots.
#[derive(Clone, Copy)]
pub enum FieldTable {
    State {
        class: u32,
        state: u32,
    },
    Enter {
        method: u32,
    },
    Leave {
        method: u32,
    },
    Head {
        context: u32,
        number: u32,
        slots: usize,
    },
}

/// A number as keys have it.
///
/// # Errors
/// `Memory` only, at 2^32.
pub fn number(n: usize) -> Result<u32, Memory>
    ensures { IfOk result (λ m. m ≡ n) }
{
    let Ok(number) = u32::try_from(n) else {
        return Err(Memory);
    };
    Ok(number)
}

/// The sum of two numbers.
///
/// # Errors
/// `Memory` only, where it fits no `usize`.
pub fn sum(n: usize, m: usize) -> Result<usize, Memory>
    ensures { IfOk result (λ k. k ≡ n + m) }
{
    let Some(sum) = n.checked_add(m) else {
        return Err(Memory);
    };
    Ok(sum)
}

/// The table of a field.
///
/// # Errors
/// `Memory` only, where a number fits no `u32`.
pub fn key_of(table: FieldTable, field: usize) -> Result<TableKey, Memory>
    ensures { IfOk result (λ k. k ≡ key_in table field) }
{
    let field = number(field)?;
    match table {
        FieldTable::State { class, state } => Ok(TableKey::Field {
            class,
            state,
            field,
        }),
        FieldTable::Enter { method } => Ok(TableKey::Enter { method, field }),
        FieldTable::Leave { method } => Ok(TableKey::Leave { method, field }),
        FieldTable::Head {
            context,
            number: loop_number,
            slots,
        } => {
            let at = sum(slots, field as usize)?;
            let slot = number(at)?;
            Ok(TableKey::Loop {
                context,
                number: loop_number,
                slot,
            })
        }
    }
}

// Appends what flows into a table.
pub(crate) fn send(outs: &mut List<Out>, key: TableKey, set: StateSet) -> Result<(), Memory>
    ensures { OnOk result (outs_in outs.new.items ≡ outs_in outs.old.items ++ record { key = key; set = set } ∷ []) }
{
    outs.push(Out { key, set })
}

// A copy of the set at a place.
#[tactic(auto, using(crate::proofs::Scenes::scenes))]
pub(crate) fn copy_at(alloc: Global, sets: &Sets, at: usize) -> Result<StateSet, Memory>
    ensures { IfOk result (λ s. s ≡ slice_index_or sets.now at []) }
{
    if at < sets.len() {
        return copy_set(sets.get(at));
    }
    empty_set(alloc, 0)
}

impl<'a> Scene<'a> {
    // Appends what flows of the own fields, each into its table.
    #[tactic(auto, using(crate::proofs::Turns::fields))]
    pub(crate) fn send_fields(
        &self,
        alloc: Global,
        outs: &mut List<Out>,
        table: FieldTable,
        sets: &Sets,
    ) -> Result<(), Memory>
        ensures { OnOk result (outs_in outs.new.items ≡ outs_in outs.old.items ++ field_outs (seen self.now) (key_in table) sets.now) }
    {
        let fields = self.own_fields();
        for field in 0..fields.len() {
            if class_in(fields[field].ty).is_none() {
                continue;
            }
            let key = key_of(table, field)?;
            let at = sum(self.method.slots.len(), field)?;
            let set = copy_at(alloc, sets, at)?;
            send(outs, key, set)?;
        }
        Ok(())
    }

    // Gives the own fields what their tables have.
    #[tactic(auto, using(crate::proofs::Turns::filled))]
    pub(crate) fn fill_fields(
        &self,
        alloc: Global,
        table: FieldTable,
        sets: &mut Sets,
    ) -> Result<(), Memory>
        ensures { OnOk result (sets.new ≡ with_fields (seen self.now) (key_in table) sets.old) }
    {
        let fields = self.own_fields();
        for field in 0..fields.len() {
            if class_in(fields[field].ty).is_none() {
                continue;
            }
            let key = key_of(table, field)?;
            let at = sum(self.method.slots.len(), field)?;
            let set = self.tables.copy_of(alloc, key)?;
            sets.put(at, set);
        }
        Ok(())
    }
}
