//! The command `load`: a workload of any size is run by its two roles. Its files are made, and nothing
//! is read.

ghost use Rattle.std.specs.Prelude.{◌≡◌, ◌++◌, ◌∷◌, [], ◌<◌, ◌≤◌, ℕ, List as Seq, map, IfOk};
ghost use Rattle.mg_load.specs.Workload.{loaded_line};
ghost use Rattle.mg_runs.specs.Lines.{role_lines};
ghost use Rattle.mg_runs.specs.Runs.{names_of};
ghost use Rattle.mg_words.specs.Words.{Load};
ghost use Rattle.mg_top.specs.Commands.{load_asked, role_mains_of};
ghost use Rattle.mg_top.specs.Statuses.{status_of};
ghost use Rattle.mg_top.specs.inner.Preparing.{IsCarried};

use crate::run::{said_of, status_of};
use mg_delivery::{Action, Delivery};
use mg_load::{load_files, loaded_line};
use mg_refusal::Stop;
use mg_runs::{Ran, run_roles};
use mg_text::{List, Memory, Text};
use std::alloc::Global;
use vm_world::RoleMain;

// The most instructions that a workload takes.
const STEPS: u32 = 20_000_000;

// The turns of its roles.
const ORDER: [u32; 2] = [0, 1];

/// What running the workload of so many branches shows, whose order this number picks; or the first
/// refusal.
pub fn load(alloc: Global, branches: u32, seed: u64) -> Result<Delivery, Stop>
    requires some { 0 < branches }
    requires most { branches ≤ 400 }
    ensures { (contents : Seq (Seq ℕ)) → IsCarried (Load branches seed) contents result }
{
    let workload = load_files(alloc, branches, seed)?;
    let mains = mains(alloc)?;
    let roles = mains.as_slice();
    let ran = run_roles(
        alloc,
        workload.names.as_slice(),
        workload.contents.as_slice(),
        roles,
        &ORDER,
        STEPS,
        true,
        false,
    )?;
    Ok(show(alloc, branches, seed, roles, ran)?)
}

// The two roles, each with the class whose `main` it runs.
fn mains(alloc: Global) -> Result<List<RoleMain>, Memory>
    ensures { IfOk result (λ l. l.items ≡ role_mains_of load_asked) }
{
    let mut mains = List::new(alloc);
    mains.push(RoleMain {
        role: Text::of(alloc, "A")?,
        class: Text::of(alloc, "AMain")?,
    })?;
    mains.push(RoleMain {
        role: Text::of(alloc, "B")?,
        class: Text::of(alloc, "BMain")?,
    })?;
    Ok(mains)
}

// What is put about the run of a workload: what was printed, with the line that tells how large it
// was, and then the lines of its roles.
fn show(
    alloc: Global,
    branches: u32,
    seed: u64,
    mains: &[RoleMain],
    ran: Ran,
) -> Result<Delivery, Memory>
    requires { branches ≤ 400 }
    ensures actions { IfOk result (λ d. d.actions.items ≡ Action.Print (ran.printed ++ loaded_line branches seed ran.messages)
        ∷ Action.Say (ran.trace ++ role_lines (names_of mains.now) (map (λ r. r.instructions) ran.roles.items)
        (map (λ r. r.stand) ran.roles.items)) ∷ []) }
    ensures status { IfOk result (λ d. d.status ≡ status_of (map (λ r. r.stand) ran.roles.items)) }
{
    let Ran {
        files: _files,
        roles,
        printed,
        trace,
        messages,
    } = ran;
    let said = said_of(alloc, &trace, mains, roles.as_slice())?;
    let line = loaded_line(alloc, branches, seed, messages)?;
    let mut put = printed;
    put.extend(line.as_str().as_bytes())?;
    let mut actions = List::new(alloc);
    actions.push(Action::Print(put))?;
    actions.push(Action::Say(said))?;
    Ok(Delivery {
        actions,
        status: status_of(roles.as_slice()),
    })
}
