//! The verdict: the least tables of a program, if no demand fails under them.
//! Otherwise the first demand that fails is named.

ghost use Rattle.std.specs.Prelude.{◌≡◌, IfOk, IfErr, slice_get};
ghost use Rattle.use_rules.specs.Tables.{all_failed};
ghost use Rattle.use_flow.specs.View.{tables_of, reached_of, contexts_of, AreFor};
ghost use Rattle.use_verdict.specs.Verdict.{AreAnswer, AnswerOf, IsAccepted};
ghost use Rattle.use_verdict.specs.Faults.{IsFault, fault_of};

use jv_core::Core;
use mg_text::Memory;
use std::alloc::Global;
use use_flow::{Context, Demand, DemandKind, Flow, Follows, Tables, flow};
use use_infer::infer;

/// The usages of an accepted program: its least tables, under which no demand fails.
#[derive(Drop)]
pub struct Accepted {
    /// The least tables.
    pub tables: Tables,
    ghost answer: { ∥ AnswerOf tables ∥₁ },
}

/// A demand that fails: a variable that was moved is read or called on; a call is made on one that may
/// be null, or whose object may be finished or in a state that doesn't offer the method; an object is
/// left or dropped with a state, is overwritten with one, or stands with one in a field where its
/// owner ends. `Memory` is no demand: memory is wanted.
#[derive(Drop)]
pub enum CheckFault {
    UseMoved(Demand),
    MaybeNull(Demand),
    NotOffered(Demand),
    LeftOpen(Demand),
    Overwritten(Demand),
    FieldOpenAtEnd(Demand),
    Memory,
}

impl From<Memory> for CheckFault {
    ghost use Rattle.use_verdict.specs.declared.verdict.CheckFault.TheVariants.{Memory};

    ghost from_gives = { λ _ e. e ≡ Memory };

    fn from(_memory: Memory) -> CheckFault {
        CheckFault::Memory
    }
}

// The fault that a demand is.
fn fault_of(demand: Demand) -> CheckFault
    ensures { result ≡ fault_of demand }
{
    match demand.kind {
        DemandKind::UseMoved => CheckFault::UseMoved(demand),
        DemandKind::MaybeNull => CheckFault::MaybeNull(demand),
        DemandKind::NotOffered => CheckFault::NotOffered(demand),
        DemandKind::LeftOpen => CheckFault::LeftOpen(demand),
        DemandKind::Overwritten => CheckFault::Overwritten(demand),
        DemandKind::FieldOpenAtEnd => CheckFault::FieldOpenAtEnd(demand),
    }
}

// The first of the demands that failed.
fn first_failed(flow: Flow) -> Option<Demand>
    ensures { result ≡ slice_get flow.failed.items 0 }
{
    flow.failed.into_vec().into_iter().next()
}

// The first demand that fails under these tables, contexts in order.
fn first_in(
    alloc: Global,
    core: &Core,
    tables: &Tables,
    contexts: &[Context],
    follows: &mut Follows,
) -> Result<Option<Demand>, Memory>
    requires made { AreFor core.now tables.now }
    requires known { contexts.now ≡ contexts_of tables.now }
    ensures { IfOk result (λ d. d ≡ slice_get (all_failed core.now (reached_of tables.now) (tables_of tables.now)) 0) }
{
    for context in contexts {
        let met = flow(alloc, core, tables, *context, follows)?;
        if let Some(demand) = first_failed(met) {
            return Ok(Some(demand));
        }
    }
    Ok(None)
}

/// The usages of a program, exactly where some tables solve it.
///
/// # Errors
/// The first demand that fails under the least tables, contexts in the order of the text, by its
/// kind; or `Memory`.
pub fn check(alloc: Global, core: &Core) -> Result<Accepted, CheckFault>
    ensures accepted { IfOk result (λ a. AreAnswer core.now a.tables) }
    ensures complete { IsAccepted core.now → IfErr result (λ e. e ≡ CheckFault.Memory) }
    ensures fault { IfErr result (λ e. IsFault core.now e) }
{
    let mut follows = Follows::new();
    let tables = infer(alloc, core, &mut follows)?;
    if let Some(demand) = first_in(alloc, core, &tables, tables.contexts(), &mut follows)? {
        return Err(fault_of(demand));
    }
    Ok(Accepted { tables })
}
