//! What flows into and out of the methods that are called.
//! Arguments flow into the parameters of a context, and the call gives what the context's result has.

ghost use Rattle.std.specs.Prelude.{◌≡◌, ◌++◌, [], length, map, option_map, slice_get, take, IfOk, OnOk};
ghost use Rattle.jv_core.specs.Conditions.{IsCore};
ghost use Rattle.jv_core.specs.View.{method_of};
ghost use Rattle.jv_core.specs.Lookup.{param_types};
ghost use Rattle.use_rules.specs.Keys.{number_of};
ghost use Rattle.use_rules.specs.declared.key.Context.TheVariants as contexts;
ghost use Rattle.use_flow.specs.inner.Fields.{outs_in};
ghost use Rattle.use_flow.specs.inner.Followed.{seen, param_outs, state_outs, result_in, state_results};

use crate::fields::{copy_at, number, send};
use crate::scene::{Scene, class_in};
use crate::{Context, Out, TableKey};
use jv_core::{Core, CoreMethod, CoreSlot};
use mg_sets::StateSet;
use mg_text::{List, Memory};
use std::alloc::Global;
use use_elements::{Sets, empty_set, take_in};

/// The method of this number, if there is one.
#[tactic(auto, using(crate::proofs::Scenes::scenes))]
pub fn method_at(core: &Core, method: u32) -> Option<&CoreMethod>
    ensures method { option_map (λ m. method_of m.now) result ≡ slice_get core.now.methods method }
    ensures core { ∥ IsCore core.now ∥₁ }
{
    core.methods().get(method as usize)
}

// The parameters of a method.
#[tactic(auto, using(crate::proofs::Taken::taken))]
pub(crate) fn params_of(method: &CoreMethod) -> &[CoreSlot]
    ensures { map (λ s. s.ty) result.now ≡ param_types (method_of method.now) }
{
    let slots = method.slots.as_slice();
    let count = (method.params as usize).min(slots.len());
    &slots[..count]
}

impl<'a> Scene<'a> {
    // Appends what flows into the parameters of a context.
    #[tactic(auto, using(crate::proofs::Taken::sent))]
    pub(crate) fn send_params(
        &self,
        alloc: Global,
        outs: &mut List<Out>,
        context: u32,
        params: &[CoreSlot],
        args: &Sets,
    ) -> Result<(), Memory>
        ensures { OnOk result (outs_in outs.new.items ≡ outs_in outs.old.items ++ param_outs (seen self.now) context 0
            (map (λ s. s.ty) params.now) args.now) }
    {
        for param in 0..params.len() {
            if param >= args.len() {
                return Ok(());
            }
            let _class = match class_in(params[param].ty) {
                Some(class) => class,
                None => continue,
            };
            let key = TableKey::Param {
                context,
                param: number(param)?,
            };
            let set = copy_at(alloc, args, param)?;
            send(outs, key, set)?;
        }
        Ok(())
    }

    // The set of the result of a context.
    pub(crate) fn result_of(
        &self,
        alloc: Global,
        context: u32,
        method: &CoreMethod,
    ) -> Result<StateSet, Memory>
        ensures { IfOk result (λ s. s ≡ result_in (seen self.now) context (method_of method.now)) }
    {
        match class_in(method.result) {
            Some(_) => self.tables.copy_of(alloc, TableKey::Result { context }),
            None => empty_set(alloc, 0),
        }
    }

    // The number of the context of a protocol method in a state.
    fn number_in(
        &self,
        method_number: u32,
        method: &CoreMethod,
        state: usize,
    ) -> Result<u32, Memory>
        ensures { IfOk result (λ n. n ≡ number_of (seen self.now).contexts
            (contexts.Protocol (method_of method.now).class state method_number)) }
    {
        let state = number(state)?;
        self.tables.context_number(Context::Protocol {
            class: method.class,
            state,
            method: method_number,
        })
    }

    // Appends what flows into the parameters in each of these states.
    #[tactic(auto, using(crate::proofs::Taken::states))]
    pub(crate) fn send_states(
        &self,
        alloc: Global,
        outs: &mut List<Out>,
        method_number: u32,
        method: &CoreMethod,
        states: &[usize],
        args: &Sets,
    ) -> Result<(), Memory>
        ensures { OnOk result (outs_in outs.new.items ≡ outs_in outs.old.items ++ state_outs (seen self.now) method_number
            (method_of method.now) states.now args.now) }
    {
        if args.len() == 0 {
            return Ok(());
        }
        for state in states {
            let context = self.number_in(method_number, method, *state)?;
            self.send_params(alloc, outs, context, params_of(method), args)?;
        }
        Ok(())
    }

    // What a call gives in any of these states.
    #[tactic(auto, using(crate::proofs::Taken::results))]
    pub(crate) fn results_of(
        &self,
        alloc: Global,
        method_number: u32,
        method: &CoreMethod,
        states: &[usize],
    ) -> Result<StateSet, Memory>
        ensures { IfOk result (λ s. s ≡ state_results (seen self.now) method_number (method_of method.now) states.now) }
    {
        let mut all = empty_set(alloc, 0)?;
        if class_in(method.result).is_none() {
            return Ok(all);
        }
        for state in states {
            let context = self.number_in(method_number, method, *state)?;
            let set = self.result_of(alloc, context, method)?;
            take_in(&mut all, &set)?;
        }
        Ok(all)
    }
}
