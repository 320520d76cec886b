//! What flows through a context.
//! Each statement is followed once, with the tables as they stand.

ghost use Rattle.std.specs.Prelude.{◌≡◌, [], None, map, IfOk};
ghost use Rattle.jv_core.specs.Conditions.{IsCore};
ghost use Rattle.jv_core.specs.Numbering.{numbers_from};
ghost use Rattle.use_rules.specs.Tables.{quiet, flow_of};
ghost use Rattle.use_flow.specs.Counting.{IsOneMore};
ghost use Rattle.use_flow.specs.View.{tables_of, reached_of, log_of, AreFor};
ghost use Rattle.use_flow.specs.inner.Followed.{seen};
ghost use Rattle.use_flow.specs.inner.Jumping.{held};
ghost use Rattle.use_flow.specs.inner.Starting.{whole};

use crate::arguments::method_at;
use crate::course::Course;
use crate::jumps::Jumps;
use crate::scene::Scene;
use crate::types::method_in;
use crate::{Context, Flow, Follows, Tables};
use jv_core::Core;
use mg_text::{List, Memory};
use std::alloc::Global;
use use_elements::empty_set;

/// What flows out of a context, which of its demands fail, and what its calls are made on, each in order, by what
/// the tables hold.
/// Also where the answer is an error, one more context was followed.
///
/// # Errors
/// `Memory` only.
#[tactic(auto, using(crate::proofs::Flowing::flowing))]
pub fn flow(
    alloc: Global,
    core: &Core,
    tables: &Tables,
    context: Context,
    follows: &mut Follows,
) -> Result<Flow, Memory>
    requires { AreFor core.now tables.now }
    ensures flows { IfOk result (λ f. log_of f ≡ flow_of core.now (reached_of tables.now) (tables_of tables.now) context) }
    ensures core { ∥ IsCore core.now ∥₁ }
    ensures counts { IsOneMore follows.old follows.new }
{
    follows.raise();
    let Some(method) = method_at(core, method_in(context)) else {
        return Ok(quiet(alloc));
    };
    let scene = Scene {
        core,
        tables,
        context,
        method,
    };
    scene.whole(alloc)
}

// Nothing flows, nothing fails, and no call is met.
fn quiet(alloc: Global) -> Flow
    ensures { log_of result ≡ quiet }
{
    Flow {
        outs: List::new(alloc),
        failed: List::new(alloc),
        sights: List::new(alloc),
    }
}

// The numbers of the parameters.
fn numbers(alloc: Global, count: u32) -> Result<Vec<u32>, Memory>
    ensures { IfOk result (λ v. v.items ≡ numbers_from 0 count) }
{
    let mut numbers = Vec::new(alloc);
    for slot in 0..count {
        numbers.push(slot)?;
    }
    Ok(numbers)
}

impl<'a> Scene<'a> {
    // All that is met in the context; at its end the method is left with no value.
    #[tactic(auto, using(crate::proofs::Flowing::flowing))]
    fn whole(&self, alloc: Global) -> Result<Flow, Memory>
        ensures { IfOk result (λ f. log_of f ≡ whole (seen self.now)) }
    {
        let scope = numbers(alloc, self.method.params)?;
        let mut course = Course {
            scope,
            jumps: Jumps::new(alloc),
            log: quiet(alloc),
        };
        let sets = self.start(alloc)?;
        let body = self.method.body.as_slice();
        let now = self.steps(alloc, body, &[], Some(sets), &mut course)?;
        let Course { scope, jumps, log } = course;
        drop(jumps);
        let mut log = log;
        let value = empty_set(alloc, 0)?;
        let end = self.method.end;
        self.leave_method(alloc, end, None, value, scope.as_slice(), now, &mut log)?;
        Ok(log)
    }
}
