//! All that is met under the least tables of a program: each demand that fails, and what each call is made on.
//! Contexts are followed once more, in their order.

ghost use Rattle.std.specs.Prelude.{◌≡◌, ◌<◌, ◌++◌, length, map, IfErr, IfOk, OnOk};
ghost use Rattle.jv_core.specs.Tree.{Program};
ghost use Rattle.use_rules.specs.Tables.{all_failed, all_sights};
ghost use Rattle.use_flow.specs.View.{tables_of, reached_of, contexts_of, sight_of, AreFor};
ghost use Rattle.use_verdict.specs.Met.{AreUsages};
ghost use Rattle.use_verdict.specs.Verdict.{AreAnswer};

use crate::verdict::Accepted;
use jv_core::Core;
use mg_text::{List, Memory};
use std::alloc::Global;
use use_flow::{Context, Demand, Flow, Follows, Sight, Tables, flow};
use use_infer::infer;

/// The least tables of a program, the demands that fail under them, and the sights, each in the order in which it is met.
#[derive(Drop)]
pub struct Usages {
    pub tables: Tables,
    pub failed: List<Demand>,
    pub sights: List<Sight>,
}

// Appends demands.
fn add_failed(all: &mut List<Demand>, failed: List<Demand>) -> Result<(), Memory>
    ensures { OnOk result (all.new.items ≡ all.old.items ++ failed.items) }
{
    for demand in failed.into_vec() {
        all.push(demand)?;
    }
    Ok(())
}

// Appends sights.
fn add_sights(all: &mut List<Sight>, sights: List<Sight>) -> Result<(), Memory>
    ensures { OnOk result (all.new.items ≡ all.old.items ++ sights.items) }
{
    for sight in sights.into_vec() {
        all.push(sight)?;
    }
    Ok(())
}

// What is met in these contexts: appended to what was met before.
fn meet(
    alloc: Global,
    core: &Core,
    tables: &Tables,
    contexts: &[Context],
    failed: &mut List<Demand>,
    sights: &mut List<Sight>,
    follows: &mut Follows,
) -> Result<(), Memory>
    requires made { AreFor core.now tables.now }
    requires known { contexts.now ≡ contexts_of tables.now }
    ensures failed { OnOk result (failed.new.items ≡ failed.old.items ++ all_failed core.now (reached_of tables.now) (tables_of tables.now)) }
    ensures sights { OnOk result (map sight_of sights.new.items ≡ map sight_of sights.old.items
        ++ all_sights core.now (reached_of tables.now) (tables_of tables.now)) }
{
    for context in contexts {
        let met = flow(alloc, core, tables, *context, follows)?;
        let Flow {
            outs,
            failed: unmet,
            sights: seen,
        } = met;
        drop(outs);
        add_failed(failed, unmet)?;
        add_sights(sights, seen)?;
    }
    Ok(())
}

/// The least tables of a program, and all that is met under them.
///
/// # Errors
/// `Memory` only.
pub fn find_usages(alloc: Global, core: &Core) -> Result<Usages, Memory>
    ensures { IfOk result (λ u. AreUsages core.now u) }
{
    let mut follows = Follows::new();
    let tables = infer(alloc, core, &mut follows)?;
    let mut failed = List::new(alloc);
    let mut sights = List::new(alloc);
    meet(
        alloc,
        core,
        &tables,
        tables.contexts(),
        &mut failed,
        &mut sights,
        &mut follows,
    )?;
    Ok(Usages {
        tables,
        failed,
        sights,
    })
}

/// The usages as accepted, where no demand fails; else the demands that fail.
///
/// # Errors
/// The demands that fail.
pub fn accepted(usages: Usages) -> Result<Accepted, List<Demand>>
    requires { (p : Program) × AreUsages p usages }
    ensures accepted { (p : Program) → AreUsages p usages → IfOk result (λ a. (a.tables ≡ usages.tables) × AreAnswer p a.tables) }
    ensures failed { IfErr result (λ f. (f.items ≡ usages.failed.items) × (0 < length f.items)) }
{
    let Usages {
        tables,
        failed,
        sights: _,
    } = usages;
    if failed.len() == 0 {
        return Ok(Accepted { tables });
    }
    Err(failed)
}
