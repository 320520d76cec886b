//! Turns of a role, one by one, in a world of its own.

ghost use Rattle.std.specs.Prelude.{◌≡◌, length, IfOk};

use crate::machine::classes::read;
use crate::machine::spelling::number_of;
use crate::machine::unanswered::Unanswered;
use cases::Answer;
use cls_bytes::ClassFault;
use mg_text::{Memory, Text};
use std::alloc::Global;
use vm_load::{LoadFault, load};
use vm_model::Linked;
use vm_step::has_main;
use vm_world::{RoleMain, World};

/// Tells behind how many turns a role rests that runs the class Hello. A case gives how many are
/// taken at most.
pub fn tell(
    alloc: Global,
    answer: &mut Answer,
    hello: &[u8],
    given: &str,
) -> Result<(), Unanswered> {
    let most = number_of(given).ok_or(Unanswered::Form)?;
    let mut world = begun(alloc, linked(alloc, hello)?)?;
    match turns(alloc, &mut world, most)? {
        Some(turns) => answer.show(&turns),
        None => answer.add("goes on"),
    }
    Ok(())
}

// The program of one class file.
fn linked(alloc: Global, bytes: &[u8]) -> Result<Linked, Unanswered> {
    let class = match read(alloc, bytes) {
        Ok(class) => class,
        Err(ClassFault::Memory) => return Err(Unanswered::Memory),
        Err(_) => return Err(Unanswered::Form),
    };
    match load(alloc, &[class]) {
        Ok(linked) => Ok(linked),
        Err(LoadFault::Memory) => Err(Unanswered::Memory),
        Err(_) => Err(Unanswered::Form),
    }
}

// The world of one role before its first turn, whose machine makes all of its tests.
fn begun(alloc: Global, linked: Linked) -> Result<World, Unanswered>
    ensures roles { IfOk result (λ w. length w.world.roles ≡ 1) }
{
    if !has_main(&linked, "Hello") {
        return Err(Unanswered::Form);
    }
    let main = main_of(alloc, "Hello")?;
    Ok(World::new(alloc, linked, &[main], false)?)
}

// A role that runs the `main` of a class.
fn main_of(alloc: Global, class: &str) -> Result<RoleMain, Memory>
    ensures { IfOk result (λ m. m.class ≡ class.now) }
{
    let role = Text::of(alloc, "A")?;
    let class = Text::of(alloc, class)?;
    Ok(RoleMain { role, class })
}

// Behind how many turns the role rests; `None` where it doesn't within so many.
fn turns(alloc: Global, world: &mut World, most: u32) -> Result<Option<u32>, Memory>
    requires { length world.old.world.roles ≡ 1 }
{
    for number in 0..most {
        if world.at_rest() {
            return Ok(Some(number));
        }
        take_turn(alloc, world, most)?;
    }
    Ok(None)
}

// A turn of the role, where fewer of its instructions were counted than are taken at most.
fn take_turn(alloc: Global, world: &mut World, most: u32) -> Result<(), Memory>
    requires { length world.old.world.roles ≡ 1 }
    ensures { length world.new.world.roles ≡ 1 }
{
    if world.steps(0) < u64::from(most) {
        let _turned = world.turn(alloc, 0)?;
    }
    Ok(())
}
