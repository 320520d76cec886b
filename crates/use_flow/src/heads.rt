//! The heads of loops, each with a table for each variable in scope.
//! What flows to a head flows into its tables, and what is known there is what they have.

ghost use Rattle.std.specs.Prelude.{◌≡◌, ◌++◌, [], Some, if◌then◌else◌, IfOk, OnOk};
ghost use Rattle.use_flow.specs.View.{log_of};
ghost use Rattle.use_flow.specs.inner.Fields.{key_in, outs_in};
ghost use Rattle.use_flow.specs.inner.Followed.{seen, here, slot_heads, has_fields, heads, field_head, field_outs, loop_scope};
ghost use Rattle.use_flow.specs.inner.Followed.{slots_at, at_head};

use crate::fields::{FieldTable, copy_at, send};
use crate::scene::{Scene, slot_class};
use crate::{Flow, Out, TableKey};
use jv_core::MethodKind;
use mg_text::{List, Memory};
use std::alloc::Global;
use use_elements::Sets;

impl<'a> Scene<'a> {
    // The number of the context that is followed.
    pub(crate) fn here(&self) -> Result<u32, Memory>
        ensures { IfOk result (λ n. n ≡ here (seen self.now)) }
    {
        self.tables.context_number(self.context)
    }

    // Whether the method runs on an object, whose fields are its own.
    pub(crate) fn has_fields(&self) -> bool
        ensures { result ≡ has_fields (seen self.now) }
    {
        match self.method.kind {
            MethodKind::Protocol | MethodKind::Helper => true,
            MethodKind::Main | MethodKind::Static => false,
        }
    }

    // The slots in scope at the head of a loop.
    #[tactic(auto, using(crate::proofs::Scenes::scenes))]
    pub(crate) fn loop_scope(&self, number: u32) -> &[u32]
        ensures { result.now ≡ loop_scope (seen self.now) number }
    {
        match self.method.loops.as_slice().get(number as usize) {
            Some(found) => found.scope.as_slice(),
            None => &[],
        }
    }

    // Appends what flows of these slots to the head of a loop.
    #[tactic(auto, using(crate::proofs::Heading::sent))]
    fn send_slots(
        &self,
        alloc: Global,
        outs: &mut List<Out>,
        context: u32,
        number: u32,
        slots: &[u32],
        sets: &Sets,
    ) -> Result<(), Memory>
        requires { context ≡ here (seen self.now) }
        ensures { OnOk result (outs_in outs.new.items ≡ outs_in outs.old.items ++ slot_heads (seen self.now) number slots.now sets.now) }
    {
        for slot in slots {
            if slot_class(self.method, *slot).is_none() {
                continue;
            }
            let set = copy_at(alloc, sets, *slot as usize)?;
            let key = TableKey::Loop {
                context,
                number,
                slot: *slot,
            };
            send(outs, key, set)?;
        }
        Ok(())
    }

    // Appends what flows of the fields of the object that the method runs on, if it does.
    #[tactic(auto, using(crate::proofs::Scenes::scenes))]
    fn send_own(
        &self,
        alloc: Global,
        outs: &mut List<Out>,
        table: FieldTable,
        sets: &Sets,
    ) -> Result<(), Memory>
        ensures { OnOk result (outs_in outs.new.items ≡ outs_in outs.old.items
            ++ (if has_fields (seen self.now) then field_outs (seen self.now) (key_in table) sets.now else [])) }
    {
        if !self.has_fields() {
            return Ok(());
        }
        self.send_fields(alloc, outs, table, sets)
    }

    // The tables of the own fields at the head of a loop.
    fn head_table(&self, context: u32, number: u32) -> FieldTable
        requires { context ≡ here (seen self.now) }
        ensures { key_in result ≡ field_head (seen self.now) number }
    {
        FieldTable::Head {
            context,
            number,
            slots: self.method.slots.len(),
        }
    }

    // What is known flows to the head of a loop.
    #[tactic(auto, using(crate::proofs::Heading::heads))]
    pub(crate) fn send_heads(
        &self,
        alloc: Global,
        number: u32,
        sets: &Sets,
        log: &mut Flow,
    ) -> Result<(), Memory>
        ensures { OnOk result (log_of log.new ≡ heads (seen self.now) number (Some sets.now) (log_of log.old)) }
    {
        let context = self.here()?;
        let slots = self.loop_scope(number);
        self.send_slots(alloc, &mut log.outs, context, number, slots, sets)?;
        let table = self.head_table(context, number);
        self.send_own(alloc, &mut log.outs, table, sets)
    }

    // Gives these slots what the tables of a head have.
    #[tactic(auto, using(crate::proofs::Heading::filled))]
    fn fill_slots(
        &self,
        alloc: Global,
        context: u32,
        number: u32,
        slots: &[u32],
        sets: &mut Sets,
    ) -> Result<(), Memory>
        requires { context ≡ here (seen self.now) }
        ensures { OnOk result (sets.new ≡ slots_at (seen self.now) number slots.now sets.old) }
    {
        for slot in slots {
            let Some(_class) = slot_class(self.method, *slot) else {
                continue;
            };
            let key = TableKey::Loop {
                context,
                number,
                slot: *slot,
            };
            let set = self.tables.copy_of(alloc, key)?;
            sets.put(*slot as usize, set);
        }
        Ok(())
    }

    // What is known at the head of a loop.
    pub(crate) fn at_head(&self, alloc: Global, number: u32, sets: &mut Sets) -> Result<(), Memory>
        ensures { OnOk result (sets.new ≡ at_head (seen self.now) number sets.old) }
    {
        let context = self.here()?;
        self.fill_slots(alloc, context, number, self.loop_scope(number), sets)?;
        if !self.has_fields() {
            return Ok(());
        }
        let table = self.head_table(context, number);
        self.fill_fields(alloc, table, sets)
    }

    // What may be known at the end of a turn flows to the head of the loop.
    pub(crate) fn send_end(
        &self,
        alloc: Global,
        number: u32,
        now: &Option<Sets>,
        log: &mut Flow,
    ) -> Result<(), Memory>
        ensures { OnOk result (log_of log.new ≡ heads (seen self.now) number now.now (log_of log.old)) }
    {
        match now {
            Some(sets) => self.send_heads(alloc, number, sets, log),
            None => Ok(()),
        }
    }
}
