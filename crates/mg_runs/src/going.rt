//! Roles of a linked program take their turns, whatever the program is of.

ghost use Rattle.std.specs.Prelude.{◌≡◌, map, IsTrue, IfOk, OnOk};
ghost use Rattle.std.specs.List.{IsDistinct, AllByRecursion};
ghost use Rattle.std.specs.Str.{bytes_eq};
ghost use Rattle.cls_verify.specs.Typing.{AllTypable};
ghost use Rattle.vm_step.specs.Main.{HasMain};
ghost use Rattle.vm_world_law.specs.World.{IsBegun};
ghost use Rattle.vm_world_law.specs.Turns.{IsRun, stands_in};
ghost use Rattle.mg_trace.specs.Trace.{printed};
ghost use Rattle.mg_runs.specs.Going.{IsOrder, IsGone};
ghost use Rattle.mg_runs.specs.Runs.{names_of};

use mg_text::{Bytes, List, Memory, Text};
use mg_trace::printed;
use std::alloc::Global;
use vm_model::Linked;
use vm_world::{RoleMain, RoleRan, World};

/// Roles that took their turns.
#[derive(Drop)]
pub struct Gone {
    /// Their world at the stop.
    pub world: World,
    /// Their names, by their numbers.
    pub names: List<Text>,
    /// How many instructions each took, and how it stands.
    pub roles: List<RoleRan>,
    /// What they printed, a line feed behind each text, and the name of its role before it where
    /// that is asked for.
    pub printed: Bytes,
}

/// Runs these roles of a linked program, each from `static void main(String[])` of its class. They
/// take turns in this order of their numbers, repeated as a cycle, until each has ended or waits, or
/// `limit` instructions were counted. Where `named`, each printed text stands behind the name of its
/// role. Where each method of the program has a typing, which `typed` says, the tests that typings
/// have made aren't made again.
///
/// # Errors
/// `Memory` only.
pub fn go(
    alloc: Global,
    linked: Linked,
    mains: &[RoleMain],
    order: &[u32],
    limit: u32,
    named: bool,
    typed: bool,
) -> Result<Gone, Memory>
    requires typable { IsTrue typed → AllTypable linked }
    requires mains { AllByRecursion (λ m. HasMain linked m.class) mains.now }
    requires roles { IsDistinct bytes_eq (map (λ m. m.role) mains.now) }
    requires order { IsOrder order.now mains.now }
    ensures { IfOk result (IsGone linked mains.now order.now limit named) }
{
    let mut world = World::new(alloc, linked, mains, typed)?;
    match played(alloc, &mut world, mains, order, limit, named) {
        Ok((roles, names, printed)) => Ok(Gone {
            world,
            names,
            roles,
            printed,
        }),
        Err(Memory) => {
            drop(world);
            Err(Memory)
        }
    }
}

// The turns of a world that has begun: how its roles stand then, their names, and what they printed.
fn played(
    alloc: Global,
    world: &mut World,
    mains: &[RoleMain],
    order: &[u32],
    limit: u32,
    named: bool,
) -> Result<(List<RoleRan>, List<Text>, Bytes), Memory>
    requires begun { IsBegun world.old.program mains.now world.old.world }
    requires order { IsOrder order.now mains.now }
    ensures program { world.new.program ≡ world.old.program }
    ensures runs { OnOk result (IsRun world.old.program world.old.world order.now limit world.new.world) }
    ensures counts { IfOk result (λ p. map (λ r. r.instructions) p.0.items ≡ map (λ r. r.count) world.new.world.roles) }
    ensures stands { IfOk result (λ p. map (λ r. r.stand) p.0.items ≡ stands_in world.new.program world.new.world) }
    ensures names { IfOk result (λ p. p.1.items ≡ names_of mains.now) }
    ensures printed { IfOk result (λ p. p.2 ≡ printed named (names_of mains.now) world.new.world.events) }
{
    world.run(alloc, order, limit)?;
    let roles = world.roles_ran(alloc, mains)?;
    let names = role_names(alloc, mains)?;
    let printed = printed(alloc, names.as_slice(), named, world.events())?;
    Ok((roles, names, printed))
}

// The names of the roles.
fn role_names(alloc: Global, mains: &[RoleMain]) -> Result<List<Text>, Memory>
    ensures { IfOk result (λ names. names.items ≡ names_of mains.now) }
{
    let mut names = List::new(alloc);
    for main in mains {
        names.push(main.role.copy()?)?;
    }
    Ok(names)
}
