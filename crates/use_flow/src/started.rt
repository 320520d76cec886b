//! Where a context begins: its parameters and fields as the tables have them.
//! All other variables are empty.

ghost use Rattle.std.specs.Prelude.{◌≡◌, ◌-◌, ◌+◌, ◌++◌, [], length, replicate, IfOk, OnOk};
ghost use Rattle.jv_core.specs.Lookup.{param_types};
ghost use Rattle.use_flow.specs.inner.Followed.{seen, here, own_fields};
ghost use Rattle.use_flow.specs.inner.Starting.{param_set, params_from, fields_at_start, start};

use crate::arguments::params_of;
use crate::fields::{FieldTable, number, sum};
use crate::scene::{Scene, class_in};
use crate::{Context, TableKey};
use jv_core::CoreType;
use mg_sets::StateSet;
use mg_text::Memory;
use std::alloc::Global;
use use_elements::{Sets, empty_set};

impl<'a> Scene<'a> {
    // The set of a parameter, by its table.
    fn param_set(
        &self,
        alloc: Global,
        context: u32,
        param: usize,
        ty: CoreType,
    ) -> Result<StateSet, Memory>
        requires { context ≡ here (seen self.now) }
        ensures { IfOk result (λ s. s ≡ param_set (seen self.now) param ty) }
    {
        if class_in(ty).is_none() {
            return empty_set(alloc, 0);
        }
        let param = number(param)?;
        self.tables
            .copy_of(alloc, TableKey::Param { context, param })
    }

    // The sets of the parameters, by their tables.
    #[tactic(auto, using(crate::proofs::Starting::params))]
    fn param_sets(&self, alloc: Global) -> Result<Sets, Memory>
        ensures { IfOk result (λ s. s ≡ params_from (seen self.now) 0 (param_types (seen self.now).method)) }
    {
        let context = self.here()?;
        let params = params_of(self.method);
        let mut sets = Sets::new(alloc);
        for param in 0..params.len() {
            let set = self.param_set(alloc, context, param, params[param].ty)?;
            sets.push(set)?;
        }
        Ok(sets)
    }

    // How many variables are no parameters.
    #[tactic(auto, using(crate::proofs::Scenes::scenes))]
    fn others(&self) -> Result<usize, Memory>
        ensures { IfOk result (λ n. n ≡ length (seen self.now).method.slots - (seen self.now).method.params + length
            (own_fields (seen self.now))) }
    {
        let slots = self.method.slots.len();
        let locals = slots.saturating_sub(self.method.params as usize);
        sum(locals, self.own_fields().len())
    }

    // Gives the fields what they have where the context begins.
    fn fill_start(&self, alloc: Global, sets: &mut Sets) -> Result<(), Memory>
        ensures { OnOk result (sets.new ≡ fields_at_start (seen self.now) sets.old) }
    {
        match self.context {
            Context::Protocol { class, state, .. } => {
                self.fill_fields(alloc, FieldTable::State { class, state }, sets)
            }
            Context::Plain { method } => {
                if !self.has_fields() {
                    return Ok(());
                }
                self.fill_fields(alloc, FieldTable::Enter { method }, sets)
            }
        }
    }

    // Where the context begins.
    pub(crate) fn start(&self, alloc: Global) -> Result<Sets, Memory>
        ensures { IfOk result (λ s. s ≡ start (seen self.now)) }
    {
        let mut sets = self.param_sets(alloc)?;
        let others = self.others()?;
        push_empty(alloc, &mut sets, others)?;
        self.fill_start(alloc, &mut sets)?;
        Ok(sets)
    }
}

// Adds so many empty sets.
fn push_empty(alloc: Global, sets: &mut Sets, count: usize) -> Result<(), Memory>
    ensures { OnOk result (sets.new ≡ sets.old ++ replicate count []) }
{
    for _place in 0..count {
        let set = empty_set(alloc, 0)?;
        sets.push(set)?;
    }
    Ok(())
}
