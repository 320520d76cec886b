//! The command `exec`: class files are run as they are, by one or several roles, each from the `main`
//! of a class. Nothing is assumed of them.

ghost use Rattle.std.specs.Prelude.{◌≡◌, ◌<◌, ◌^◌, ◌++◌, ◌∷◌, [], List as Seq, length, map, IfOk};
ghost use Rattle.mg_runs.specs.Lines.{role_lines};
ghost use Rattle.mg_runs.specs.Runs.{names_of};
ghost use Rattle.mg_words.specs.Words.{Word, Exec};
ghost use Rattle.mg_top.specs.Commands.{prints};
ghost use Rattle.mg_top.specs.Statuses.{status_of};
ghost use Rattle.mg_top.specs.inner.Preparing.{IsCarried};
ghost use Rattle.mg_words.specs.inner.Judging.{asked_of, IsAsked};

use crate::run::{add_print, limit_of, mains_of, said_of, status_of};
use mg_delivery::{Action, Delivery, Status};
use mg_exec::{Ran, exec_roles};
use mg_refusal::Stop;
use mg_text::{Bytes, List, Memory};
use mg_words::Asked;
use std::alloc::Global;
use vm_world::RoleMain;

/// What the run of the roles shows, or the first refusal.
pub fn exec(alloc: Global, asked: &Asked<'_>, contents: &[Bytes]) -> Result<Delivery, Stop>
    requires asked { IsAsked (asked_of asked.now) }
    requires count { length contents.now < 2 ^ 32 }
    ensures { (names : Seq Word) → length names ≡ length contents.now → IsCarried (Exec (asked_of asked.now) names) contents.now result }
{
    let mains = mains_of(alloc, asked)?;
    let roles = mains.as_slice();
    let order = asked.order(alloc)?;
    let limit = limit_of(asked);
    let named = asked.is_named();
    let ran = exec_roles(
        alloc,
        contents,
        roles,
        order.as_slice(),
        limit,
        named,
        asked.traced,
    )?;
    Ok(show(alloc, roles, ran)?)
}

// What is put about a run: what was printed, and then its trace and the lines of its roles. An empty
// text isn't put.
fn show(alloc: Global, mains: &[RoleMain], ran: Ran) -> Result<Delivery, Memory>
    ensures actions { IfOk result (λ d. d.actions.items ≡ prints ran.printed ++ Action.Say (ran.trace
        ++ role_lines (names_of mains.now) (map (λ r. r.instructions) ran.roles.items) (map (λ r. r.stand) ran.roles.items)) ∷ []) }
    ensures status { IfOk result (λ d. d.status ≡ status_of (map (λ r. r.stand) ran.roles.items)) }
{
    let Ran {
        roles,
        printed,
        trace,
    } = ran;
    let said = said_of(alloc, &trace, mains, roles.as_slice())?;
    let mut actions = List::new(alloc);
    add_print(printed, &mut actions)?;
    actions.push(Action::Say(said))?;
    Ok(Delivery {
        actions,
        status: status_of(roles.as_slice()),
    })
}
