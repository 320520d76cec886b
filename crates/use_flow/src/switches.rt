//! Switches: what flows on with each constant of the enum.
//! With all constants the same is known, but for the variable on which a call was made.

ghost use Rattle.std.specs.Prelude.{◌≡◌, false, Some, map, IfOk, OnOk};
ghost use Rattle.mg_sets.specs.Sets.{has};
ghost use Rattle.jv_core.specs.View.{expr_of, method_of, group_of, groups_of};
ghost use Rattle.jv_core.specs.Lookup.{text_at};
ghost use Rattle.use_rules.specs.Elements.{none, targets};
ghost use Rattle.use_rules.specs.Flow.{all_labels};
ghost use Rattle.use_rules.specs.State.{joined};
ghost use Rattle.use_flow.specs.View.{log_of};
ghost use Rattle.use_flow.specs.inner.Followed.{Followed, seen};
ghost use Rattle.use_flow.specs.inner.Listed.{call_of};
ghost use Rattle.use_flow.specs.inner.Simple.{constants_of};
ghost use Rattle.use_flow.specs.inner.Switching.{spread, with_any, gathered, branched, nows_of, rest_of, past_of, note_one, noted};
ghost use Rattle.use_flow.specs.inner.Switching.{uncased_by, label_now, variables, known_set, uncased, entry_of, by_constants, switched};
ghost use Rattle.use_flow.specs.inner.Switching.{led_by, led_set, called_switch, plain_switch, past};
ghost use Rattle.use_flow.specs.inner.Values.{protocol_call};

use crate::Flow;
use crate::arguments::{method_at, params_of};
use crate::evaluated::{Arguments, Value};
use crate::fields::copy_at;
use crate::listed::{Call, call_in};
use crate::scene::Scene;
use crate::simple::put_in;
use crate::targets::MethodKey;
use jv_core::{CoreExpr, CoreGroup, CoreMethod, CoreVar, Var, name_text};
use mg_sets::StateSet;
use mg_text::{Memory, Name};
use std::alloc::Global;
use use_elements::{Sets, copy_now, copy_set, empty_set, mark, take_in};

/// What flows on with each constant: what is known, but for one variable, and the sets of that.
#[derive(Drop)]
pub(crate) struct Branches {
    known: Option<Sets>,
    variable: usize,
    sets: Vec<StateSet>,
}

/// Which constants have a case, and whether there is a `default`.
#[derive(Drop)]
pub(crate) struct Labels {
    cased: StateSet,
    has_default: bool,
}

/// What flows on with each constant, and the sets of those that have no case together.
#[derive(Drop)]
pub(crate) struct Sprouts {
    branches: Branches,
    rest: Option<StateSet>,
    has_default: bool,
}

// The members of either.
fn gather(all: Option<StateSet>, set: &StateSet) -> Result<StateSet, Memory>
    ensures { IfOk result (λ s. s ≡ gathered all set.now) }
{
    let Some(mut all) = all else {
        return copy_set(set);
    };
    take_in(&mut all, set)?;
    Ok(all)
}

// Notes a label.
fn note(labels: &mut Labels, label: Option<u32>)
    ensures { labels.new ≡ note_one label labels.old }
{
    match label {
        Some(constant) => mark(&mut labels.cased, constant as usize),
        None => labels.has_default = true,
    }
}

// Notes the labels of a group.
#[tactic(auto, using(crate::proofs::Choosing::noting))]
fn note_labels(labels: &mut Labels, given: &[Option<u32>])
    ensures { labels.new ≡ noted given.now labels.old }
{
    for label in given {
        note(labels, *label);
    }
}

// The labels of a switch over so many constants.
#[tactic(auto, using(crate::proofs::Choosing::noting))]
fn labels_of(alloc: Global, width: usize, groups: &[CoreGroup]) -> Result<Labels, Memory>
    ensures { IfOk result (λ l. l ≡ noted (all_labels (groups_of (map group_of groups.now)))
        (record { cased = none width; has_default = false })) }
{
    let mut labels = Labels {
        cased: empty_set(alloc, width)?,
        has_default: false,
    };
    for group in groups {
        note_labels(&mut labels, group.labels.as_slice());
    }
    Ok(labels)
}

// Whether a constant is among these.
#[tactic(auto, using(crate::proofs::Choosing::resting))]
fn is_in(cased: &StateSet, constant: usize) -> bool
    ensures { result ≡ has cased.now constant }
{
    if constant < cased.width() {
        return cased.has(constant);
    }
    false
}

impl Branches {
    // What is known where the variable has this set; nothing flows where there is none.
    fn with_any(&self, alloc: Global, set: Option<StateSet>) -> Result<Option<Sets>, Memory>
        ensures { IfOk result (λ n. n ≡ with_any self.now.variable self.now.known set) }
    {
        let Some(set) = set else {
            return Ok(None);
        };
        let now = copy_now(alloc, &self.known)?;
        Ok(put_in(now, self.variable, set))
    }

    // The sets of the constants that have no case.
    #[tactic(auto, using(crate::proofs::Choosing::resting))]
    fn rest(&self, cased: &StateSet) -> Result<Option<StateSet>, Memory>
        ensures { IfOk result (λ r. with_any self.now.variable self.now.known r ≡ uncased_by cased.now 0
            (spread self.now.variable self.now.known self.now.sets.items)) }
    {
        let mut rest = None;
        for constant in 0..self.sets.len() {
            if is_in(cased, constant) {
                continue;
            }
            let all = gather(rest, &self.sets[constant])?;
            rest = Some(all);
        }
        Ok(rest)
    }
}

impl Sprouts {
    // What flows past the switch by the constants that have no case, where it has no default.
    pub(crate) fn past(&self, alloc: Global) -> Result<Option<Sets>, Memory>
        ensures { IfOk result (λ n. n ≡ past_of self.now) }
    {
        if self.has_default {
            return Ok(None);
        }
        let rest = match &self.rest {
            Some(set) => Some(copy_set(set)?),
            None => None,
        };
        self.branches.with_any(alloc, rest)
    }

    // Adds what leads to a label.
    #[tactic(auto, using(crate::proofs::Choosing::leading))]
    fn with_label(
        &self,
        all: Option<StateSet>,
        label: Option<u32>,
    ) -> Result<Option<StateSet>, Memory>
        ensures { IfOk result (λ r. with_any self.now.branches.variable self.now.branches.known r
            ≡ joined (with_any self.now.branches.variable self.now.branches.known all)
            (label_now (rest_of self.now) (nows_of self.now) label)) }
    {
        match label {
            Some(constant) => {
                let at = constant as usize;
                if at < self.branches.sets.len() {
                    let all = gather(all, &self.branches.sets[at])?;
                    return Ok(Some(all));
                }
                Ok(all)
            }
            None => match &self.rest {
                Some(rest) => {
                    let all = gather(all, rest)?;
                    Ok(Some(all))
                }
                None => Ok(all),
            },
        }
    }

    // What the labels of a group lead to it.
    #[tactic(auto, using(crate::proofs::Choosing::entering))]
    pub(crate) fn entry(
        &self,
        alloc: Global,
        labels: &[Option<u32>],
    ) -> Result<Option<Sets>, Memory>
        ensures { (s : Followed) → IfOk result (λ n. n ≡ entry_of s (rest_of self.now) (nows_of self.now) labels.now) }
    {
        let mut all = None;
        for label in labels {
            all = self.with_label(all, *label)?;
        }
        self.branches.with_any(alloc, all)
    }
}

// The set of a variable, empty where nothing is known.
fn set_at(alloc: Global, now: &Option<Sets>, variable: usize) -> Result<StateSet, Memory>
    ensures { IfOk result (λ s. s ≡ known_set now.now variable) }
{
    match now {
        Some(sets) => copy_at(alloc, sets, variable),
        None => empty_set(alloc, 0),
    }
}

// How many variables are known.
fn count(now: &Option<Sets>) -> usize
    ensures { result ≡ variables now.now }
{
    match now {
        Some(sets) => sets.len(),
        None => 0,
    }
}

// A set without places for each of these.
#[tactic(auto, using(crate::proofs::Choosing::mapped))]
fn empty_sets(alloc: Global, constants: &[Name]) -> Result<Vec<StateSet>, Memory>
    ensures { IfOk result (λ v. v.items ≡ map (λ (c : Name). none 0) constants.now) }
{
    let mut sets = Vec::new(alloc);
    for _constant in constants {
        let set = empty_set(alloc, 0)?;
        sets.push(set)?;
    }
    Ok(sets)
}

impl<'a> Scene<'a> {
    // What a call leads to with a label.
    fn led_set(
        &self,
        alloc: Global,
        receiver: Var,
        number: u32,
        method: &CoreMethod,
        set: &StateSet,
        label: Name,
    ) -> Result<StateSet, Memory>
        ensures { IfOk result (λ s. s ≡ led_set (seen self.now) receiver (method_of method.now) set.now
            (text_at (seen self.now).program label.0)) }
    {
        let width = self.variable_width(receiver);
        let label = name_text(self.core, label);
        let call = MethodKey {
            class: method.class,
            name: method.name,
            number,
        };
        self.image_along(alloc, width, call, Some(label), set)
    }

    // What a call leads to with each of these labels.
    #[tactic(auto, using(crate::proofs::Choosing::mapped))]
    fn led_sets(
        &self,
        alloc: Global,
        receiver: Var,
        number: u32,
        method: &CoreMethod,
        set: &StateSet,
        constants: &[Name],
    ) -> Result<Vec<StateSet>, Memory>
        ensures { IfOk result (λ v. v.items
            ≡ map (λ (c : Name). led_set (seen self.now) receiver (method_of method.now) set.now (text_at (seen self.now).program c.0))
            constants.now) }
    {
        let mut sets = Vec::new(alloc);
        for constant in constants {
            let led = self.led_set(alloc, receiver, number, method, set, *constant)?;
            sets.push(led)?;
        }
        Ok(sets)
    }

    // A switch over a call, behind its arguments: with each label the variable has what that leads to.
    #[tactic(auto, using(crate::proofs::Choosing::calls))]
    fn led_branches(
        &self,
        alloc: Global,
        receiver: CoreVar,
        number: u32,
        method: &CoreMethod,
        args: Arguments,
        log: &mut Flow,
    ) -> Result<Branches, Memory>
        ensures nows { IfOk result (λ b. branched b ≡ by_constants (seen self.now)
            (led_by (seen self.now) receiver number (method_of method.now) args.sets args.now (log_of log.old))
            (constants_of (seen self.now) (Some (method_of method.now).result))) }
        ensures log { OnOk result (log_of log.new
            ≡ (protocol_call (seen self.now) targets receiver number (method_of method.now) args.sets args.now (log_of log.old)).log) }
    {
        let variable = self.variable_at(receiver.var);
        let set = set_at(alloc, &args.now, variable)?;
        let constants = self.constants_of(Some(method.result));
        let sets = self.led_sets(alloc, receiver.var, number, method, &set, constants)?;
        let value = self.protocol_call(alloc, receiver, number, method, args, log)?;
        let Value { set: given, ways } = value;
        drop(given);
        let now = ways.after()?;
        Ok(Branches {
            known: now,
            variable,
            sets,
        })
    }

    // A switch over a call.
    #[tactic(auto, using(crate::proofs::Choosing::calls))]
    fn call_branches(
        &self,
        alloc: Global,
        call: Call<'_>,
        sets: Sets,
        log: &mut Flow,
    ) -> Result<Branches, Memory>
        ensures nows { IfOk result (λ b. branched b ≡ (called_switch (seen self.now) (call_of call.entry) sets (log_of log.old)).1) }
        ensures log { OnOk result (log_of log.new ≡ (called_switch (seen self.now) (call_of call.entry) sets (log_of log.old)).0.log) }
    {
        let Some(called) = method_at(self.core, call.method) else {
            // there is no such method
            let args = self.eval_all(alloc, &[], call.args, Some(sets), log)?;
            let Arguments { sets: given, now } = args;
            drop(given);
            return Ok(Branches {
                known: now,
                variable: 0,
                sets: Vec::new(alloc),
            });
        };
        let args = self.eval_all(alloc, params_of(called), call.args, Some(sets), log)?;
        self.led_branches(alloc, call.receiver, call.method, called, args, log)
    }

    // A switch over another value: with all constants the same is known.
    #[tactic(auto, using(crate::proofs::Choosing::plains))]
    fn plain_branches(
        &self,
        alloc: Global,
        value: &CoreExpr,
        sets: Sets,
        log: &mut Flow,
    ) -> Result<Branches, Memory>
        ensures nows { IfOk result (λ b. branched b ≡ (plain_switch (seen self.now) (expr_of value.now) sets (log_of log.old)).1) }
        ensures log { OnOk result (log_of log.new ≡ (plain_switch (seen self.now) (expr_of value.now) sets (log_of log.old)).0.log) }
    {
        let constants = self.constants_of(self.type_dropped(value));
        let empty = empty_sets(alloc, constants)?;
        let Value { set, ways } = self.eval(alloc, 0, value, sets, log)?;
        drop(set);
        let now = ways.after()?;
        let variable = count(&now);
        Ok(Branches {
            known: now,
            variable,
            sets: empty,
        })
    }

    // What flows on with each constant of a switch.
    fn branches(
        &self,
        alloc: Global,
        value: &CoreExpr,
        sets: Sets,
        log: &mut Flow,
    ) -> Result<Branches, Memory>
        ensures nows { IfOk result (λ b. branched b ≡ (switched (seen self.now) (expr_of value.now) (Some sets) (log_of log.old)).1) }
        ensures log { OnOk result (log_of log.new ≡ (switched (seen self.now) (expr_of value.now) (Some sets) (log_of log.old)).0.log) }
    {
        match call_in(value) {
            Some(call) => self.call_branches(alloc, call, sets, log),
            None => self.plain_branches(alloc, value, sets, log),
        }
    }

    // What flows on with each constant of a switch with these groups.
    #[tactic(auto, using(crate::proofs::Choosing::choices))]
    pub(crate) fn choose(
        &self,
        alloc: Global,
        value: &CoreExpr,
        groups: &[CoreGroup],
        sets: Sets,
        log: &mut Flow,
    ) -> Result<Sprouts, Memory>
        ensures nows { IfOk result (λ r. nows_of r ≡ (switched (seen self.now) (expr_of value.now) (Some sets) (log_of log.old)).1) }
        ensures rest { IfOk result (λ r. rest_of r ≡ uncased (seen self.now) (all_labels (groups_of (map group_of groups.now))) 0
            (nows_of r)) }
        ensures past { IfOk result (λ r. past_of r ≡ past (seen self.now) (groups_of (map group_of groups.now)) (nows_of r)) }
        ensures log { OnOk result (log_of log.new ≡ (switched (seen self.now) (expr_of value.now) (Some sets) (log_of log.old)).0.log) }
    {
        let branches = self.branches(alloc, value, sets, log)?;
        let labels = labels_of(alloc, branches.sets.len(), groups)?;
        let rest = branches.rest(&labels.cased)?;
        Ok(Sprouts {
            branches,
            rest,
            has_default: labels.has_default,
        })
    }
}
