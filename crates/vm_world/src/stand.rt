//! How the roles of a world stand.

ghost use Rattle.std.specs.Prelude.{◌≡◌, ◌<◌, length, map, IfOk, IfSome, Some};
ghost use Rattle.vm_world_law.specs.Turns.{stands_in};
ghost use Rattle.vm_world.specs.Standing.{stand_at, waiting_in};

use crate::role::copy_of;
use crate::world::World;
use mg_text::{List, Memory};
use std::alloc::Global;
use vm_world_law::{RoleMain, Stand};

/// A role of a world: how many of its instructions were counted, and how it stands.
#[derive(Drop)]
pub struct RoleRan {
    pub instructions: u64,
    pub stand: Stand,
}

/// How a role stands that hasn't ended, by the role for whose message it waits.
fn waiting(mains: &[RoleMain], peer: Option<u32>) -> Result<Stand, Memory>
    requires { IfSome peer (λ k. k < length mains.now) }
    ensures { IfOk result (λ s. s ≡ waiting_in (map (λ m. m.role) mains.now) peer) }
{
    match peer {
        Some(peer) => Ok(Stand::Waits(mains[peer as usize].role.copy()?)),
        None => Ok(Stand::Bound),
    }
}

impl World {
    /// How a role stands.
    fn stand(&self, mains: &[RoleMain], role: u32) -> Result<Stand, Memory>
        requires number { role < length self.now.world.roles }
        requires names { self.now.world.messages.roles ≡ map (λ m. m.role) mains.now }
        ensures { IfOk result (λ s. Some s ≡ stand_at self.now.program self.now.world role) }
    {
        match self.ending(role) {
            Some(ending) => Ok(Stand::Ended(copy_of(ending)?)),
            None => waiting(mains, self.waits(role)),
        }
    }

    /// How many instructions of each role were counted, and how it stands. `mains` are the roles of
    /// the world.
    ///
    /// # Errors
    /// `Memory` only.
    pub fn roles_ran(&self, alloc: Global, mains: &[RoleMain]) -> Result<List<RoleRan>, Memory>
        requires names { self.now.world.messages.roles ≡ map (λ m. m.role) mains.now }
        ensures counts { IfOk result (λ l. map (λ r. r.instructions) l.items ≡ map (λ r. r.count) self.now.world.roles) }
        ensures stands { IfOk result (λ l. map (λ r. r.stand) l.items ≡ stands_in self.now.program self.now.world) }
    {
        let mut ran = List::new(alloc);
        let count = self.roles.len() as u32;
        for role in 0..count {
            let stand = self.stand(mains, role)?;
            ran.push(RoleRan {
                instructions: self.steps(role),
                stand,
            })?;
        }
        Ok(ran)
    }
}
