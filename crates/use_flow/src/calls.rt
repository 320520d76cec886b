//! Calls, behind their arguments.
//! What flows into the method that is called stands in the log, and its result comes from the tables.

ghost use Rattle.std.specs.Prelude.{◌≡◌, ◌++◌, ◌∷◌, [], Some, IfOk, OnOk};
ghost use Rattle.jv_core.specs.View.{method_of};
ghost use Rattle.use_rules.specs.Elements.{targets};
ghost use Rattle.use_flow.specs.View.{log_of};
ghost use Rattle.use_flow.specs.inner.Followed.{seen};
ghost use Rattle.use_flow.specs.inner.Calling.{sights_in};
ghost use Rattle.use_flow.specs.inner.Values.{evaluated_of, protocol_call, static_call, helper_call};

use crate::arguments::params_of;
use crate::calling::Met;
use crate::evaluated::{Arguments, Value, Ways};
use crate::fields::{FieldTable, copy_at};
use crate::scene::Scene;
use crate::targets::MethodKey;
use crate::{Context, Flow, Sight};
use jv_core::{CoreMethod, CoreVar};
use mg_sets::StateSet;
use mg_text::{List, Memory};
use std::alloc::Global;
use use_elements::Sets;

// Appends what a variable has where a method is called on it.
fn see(
    sights: &mut List<Sight>,
    receiver: CoreVar,
    method: u32,
    set: StateSet,
) -> Result<(), Memory>
    ensures { OnOk result (sights_in sights.new.items ≡ sights_in sights.old.items
        ++ record { place = receiver.place; variable = receiver.var; method = method; set = set } ∷ []) }
{
    sights.push(Sight {
        place: receiver.place,
        variable: receiver.var,
        method,
        set,
    })
}

impl<'a> Scene<'a> {
    // A call of a static method.
    pub(crate) fn static_call(
        &self,
        alloc: Global,
        number: u32,
        method: &CoreMethod,
        args: Arguments,
        log: &mut Flow,
    ) -> Result<Value, Memory>
        ensures { IfOk result (λ v. evaluated_of v (log_of log.new) ≡ static_call (seen self.now) number (method_of method.now) args.sets
            args.now (log_of log.old)) }
    {
        let Arguments { sets: given, now } = args;
        let Some(sets) = now else {
            return Value::plain(alloc, None);
        };
        let context = self
            .tables
            .context_number(Context::Plain { method: number })?;
        let params = params_of(method);
        self.send_params(alloc, &mut log.outs, context, params, &given)?;
        let set = self.result_of(alloc, context, method)?;
        Ok(Value {
            set,
            ways: Ways::Alike(Some(sets)),
        })
    }

    // A call of a helper: the own fields flow to where it is entered, and are then as it is left.
    pub(crate) fn helper_call(
        &self,
        alloc: Global,
        number: u32,
        method: &CoreMethod,
        args: Arguments,
        log: &mut Flow,
    ) -> Result<Value, Memory>
        ensures { IfOk result (λ v. evaluated_of v (log_of log.new) ≡ helper_call (seen self.now) number (method_of method.now) args.sets
            args.now (log_of log.old)) }
    {
        let Arguments { sets: given, now } = args;
        let Some(mut sets) = now else {
            return Value::plain(alloc, None);
        };
        let context = self
            .tables
            .context_number(Context::Plain { method: number })?;
        let params = params_of(method);
        self.send_params(alloc, &mut log.outs, context, params, &given)?;
        drop(given);
        self.send_fields(
            alloc,
            &mut log.outs,
            FieldTable::Enter { method: number },
            &sets,
        )?;
        self.fill_fields(alloc, FieldTable::Leave { method: number }, &mut sets)?;
        let set = self.result_of(alloc, context, method)?;
        Ok(Value {
            set,
            ways: Ways::Alike(Some(sets)),
        })
    }

    // A call of a protocol method, from what the variable has.
    pub(crate) fn given_call(
        &self,
        alloc: Global,
        receiver: CoreVar,
        number: u32,
        method: &CoreMethod,
        args: &Sets,
        sets: Sets,
        log: &mut Flow,
    ) -> Result<Value, Memory>
        ensures { IfOk result (λ v. evaluated_of v (log_of log.new) ≡ protocol_call (seen self.now) targets receiver number
            (method_of method.now) args.now (Some sets) (log_of log.old)) }
    {
        let mut sets = sets;
        let at = self.variable_at(receiver.var);
        let set = copy_at(alloc, &sets, at)?;
        let subject = self.subject(receiver.place, receiver.var);
        let call = MethodKey {
            class: method.class,
            name: method.name,
            number,
        };
        let names = self.core.names();
        let width = self.variable_width(receiver.var);
        let failed = &mut log.failed;
        let met = self.meet_call(alloc, names, failed, subject, call, width, &set)?;
        let Met { states, led } = met;
        self.send_states(
            alloc,
            &mut log.outs,
            number,
            method,
            states.as_slice(),
            args,
        )?;
        let result = self.results_of(alloc, number, method, states.as_slice())?;
        sets.put(at, led);
        see(&mut log.sights, receiver, number, set)?;
        Ok(Value {
            set: result,
            ways: Ways::Alike(Some(sets)),
        })
    }

    // A call of a protocol method.
    #[tactic(auto, using(crate::proofs::Scenes::scenes))]
    pub(crate) fn protocol_call(
        &self,
        alloc: Global,
        receiver: CoreVar,
        number: u32,
        method: &CoreMethod,
        args: Arguments,
        log: &mut Flow,
    ) -> Result<Value, Memory>
        ensures { IfOk result (λ v. evaluated_of v (log_of log.new) ≡ protocol_call (seen self.now) targets receiver number
            (method_of method.now) args.sets args.now (log_of log.old)) }
    {
        let Arguments { sets: given, now } = args;
        let Some(sets) = now else {
            return Value::plain(alloc, None);
        };
        self.given_call(alloc, receiver, number, method, &given, sets, log)
    }
}
