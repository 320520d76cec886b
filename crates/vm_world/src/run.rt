//! A run of several roles: turns in an order that is repeated as a cycle.
//! It stops where the world rests, which a whole cycle of turns that change nothing shows, or where
//! so many instructions were counted.
//!
//! Steps that a role takes alone change nothing but its machine, so they are the same whether the
//! turns of other roles come before them or behind. A role whose turn comes takes as many of them at
//! once as turns of its own are sure to come, and is then that many turns ahead: when they come
//! they are counted, and nothing is left to do: all at once where every other role is still, and whole
//! cycles at once where every role is far enough ahead. A role that was found still isn't asked again before a
//! turn that may have moved a message.

ghost use Rattle.std.specs.Prelude.{◌≡◌, ◌⊎◌, ◌<◌, ◌≤◌, ◌^◌, ◌-◌, ◌+◌, ◌*◌, ◌%◌, ◌≢◌, ◌==◌, ℕ, Contains, length, replicate, slice_get, IfOk};
ghost use Rattle.std.specs.Prelude.{false, IfSome, get_or, count_by};
ghost use Rattle.vm_world_law.specs.Turns.{counted, Advances, IsRun};
ghost use Rattle.vm_world.specs.Alone.{Counts};

use crate::world::World;
use mg_text::Memory;
use std::alloc::Global;

/// The place that follows in a cycle.
fn following(place: usize, count: usize) -> usize
    requires { place < count }
    ensures { result ≡ (place + 1) % count }
{
    let behind = place + 1;
    if behind < count { behind } else { 0 }
}

/// How many turns a role may take at once, in an order of so many of which so many are left: no more
/// than whole cycles, in each of which one of its own comes.
fn most_at_once(count: usize, left: u32) -> u32
    requires count { 0 < count }
    requires some { 0 < left }
    ensures some { 0 < result }
    ensures within { result ≤ left }
    ensures come { (result ≡ 1) ⊎ (result * count ≤ left) }
{
    let cycles = left as usize / count;
    if cycles > 1 { cycles as u32 } else { 1 }
}

/// How many turns of a role that is so many ahead are counted at once. Where the turns of all others, which are the last so many, found
/// them still, nothing happens until all of its own have come.
fn come_at_once(ahead: u32, idle: usize, count: usize) -> u32
    requires ahead { 0 < ahead }
    requires within { idle < count }
    ensures some { 0 < result }
    ensures within { result ≤ ahead }
    ensures come { (result ≡ 1) ⊎ (result ≡ ahead) × (idle + 1 ≡ count) }
{
    if idle + 1 == count { ahead } else { 1 }
}

/// How often a cycle of turns that names each of so many roles names one of them at most.
fn often_in_a_cycle(order: &[u32], roles: usize) -> usize
    requires named { (r : ℕ) → r < roles → Contains order.now r }
    ensures some { 0 < result }
    ensures often { (r : ℕ) → count_by (λ x. x == r) order.now ≤ result }
{
    order.len() - roles + 1
}

/// How many turns each role of the order is ahead at least: none where one is ahead by no more than `few`, and the others needn't be
/// looked at.
fn least_ahead(order: &[u32], ahead: &[u32], few: usize) -> u32
    requires numbers { (i : ℕ) (r : ℕ) → slice_get order.now i ≡ Some r → r < length ahead.now }
    ensures { (r : ℕ) → Contains order.now r → result ≤ get_or ahead.now r 0 }
{
    let mut least = u32::MAX;
    for role in order {
        let turns = ahead[*role as usize];
        if turns as usize <= few {
            return 0;
        }
        least = least.min(turns);
    }
    least
}

/// How many whole cycles of turns are counted at once, each of which names a role at most so often: no more than every role is ahead
/// for, and no more than are left.
#[inline(never)]
fn cycles_at_once(order: &[u32], ahead: &[u32], often: usize, left: u32) -> u32
    requires numbers { (i : ℕ) (r : ℕ) → slice_get order.now i ≡ Some r → r < length ahead.now }
    requires cycle { 0 < length order.now }
    requires some { 0 < often }
    requires often { (r : ℕ) → count_by (λ x. x == r) order.now ≤ often }
    ensures ahead { (r : ℕ) → result * count_by (λ x. x == r) order.now ≤ get_or ahead.now r 0 }
    ensures within { result * length order.now ≤ left }
{
    let cycles = least_ahead(order, ahead, often) as usize / often;
    cycles.min(left as usize / order.len()) as u32
}

/// Counts so many whole cycles of turns of roles that are ahead. The answer is how many turns these are.
#[inline(never)]
fn count_cycles(order: &[u32], ahead: &mut [u32], cycles: u32) -> u32
    requires numbers { (i : ℕ) (r : ℕ) → slice_get order.now i ≡ Some r → r < length ahead.old }
    requires some { 0 < cycles }
    requires fits { cycles * length order.now < 2 ^ 32 }
    ensures turns { result ≡ cycles * length order.now }
    ensures long { length ahead.new ≡ length ahead.old }
    ensures each { (r : ℕ) → get_or ahead.new r 0 ≡ get_or ahead.old r 0 - cycles * count_by (λ x. x == r) order.now }
{
    for role in order {
        let place = *role as usize;
        ahead[place] = ahead[place].saturating_sub(cycles);
    }
    cycles * order.len() as u32
}

/// The version of the messages behind turns that counted so many instructions: several of them move
/// no message, and one does only where the last event is of one.
fn version_behind(version: u64, counted: u32, moved: bool) -> u64
    requires { version < 2 ^ 64 - 1 }
    ensures { (result ≡ version + 1) ⊎ (result ≡ version) × ((counted ≢ 1) ⊎ (moved ≡ false)) }
{
    if counted > 1 {
        return version;
    }
    if moved { version + 1 } else { version }
}

impl World {
    /// One turn of a role, or none where it has ended. The answer is whether an instruction was counted.
    fn go_on(&mut self, alloc: Global, role: u32) -> Result<bool, Memory>
        requires number { role < length self.old.world.roles }
        requires count { IfSome (slice_get self.old.world.roles role) (λ r. r.count < 2 ^ 32 - 1) }
        ensures program { self.new.program ≡ self.old.program }
        ensures advances { IfOk result (λ b. Advances self.old.program self.old.world role self.new.world b) }
    {
        if self.is_over(role) {
            return Ok(false);
        }
        let told = self.tell(role)?;
        if told {
            return Ok(true);
        }
        self.count_turn(alloc, role)
    }

    /// Turns of a role, at most so many: several only where none of them tells anything. The answer
    /// is how many instructions were counted, none where the role has ended or waits.
    #[inline(always)]
    fn take_turns(&mut self, alloc: Global, role: u32, most: u32) -> Result<u32, Memory>
        requires number { role < length self.old.world.roles }
        requires some { 0 < most }
        requires count { IfSome (slice_get self.old.world.roles role) (λ r. r.count + most < 2 ^ 32) }
        ensures program { self.new.program ≡ self.old.program }
        ensures most { IfOk result (λ k. k ≤ most) }
        ensures turns { IfOk result (λ k. Counts self.old.program self.old.world role k self.new.world) }
    {
        let taken = self.turns_alone(role, most);
        if taken > 0 {
            return Ok(taken);
        }
        let counted = self.go_on(alloc, role)?;
        if counted { Ok(1) } else { Ok(0) }
    }

    /// Turns of a role, of which as many are taken at once as are sure to come: in an order of so
    /// many, where so many instructions are left. The answer is how many were counted.
    #[inline(never)]
    fn take_at_once(
        &mut self,
        alloc: Global,
        role: u32,
        count: usize,
        left: u32,
    ) -> Result<u32, Memory>
        requires number { role < length self.old.world.roles }
        requires cycle { 0 < count }
        requires some { 0 < left }
        requires room { IfSome (slice_get self.old.world.roles role) (λ r. r.count + left < 2 ^ 32) }
        ensures program { self.new.program ≡ self.old.program }
        ensures come { IfOk result (λ k. (k ≤ 1) ⊎ (k * count ≤ left)) }
        ensures turns { IfOk result (λ k. Counts self.old.program self.old.world role k self.new.world) }
    {
        self.take_turns(alloc, role, most_at_once(count, left))
    }

    /// Turns of one role, up to the first moment at which it rests or `limit` instructions were
    /// counted.
    fn run_one(&mut self, alloc: Global, order: &[u32], limit: u32) -> Result<(), Memory>
        requires one { length order.now ≡ 1 }
        requires numbers { (i : ℕ) (r : ℕ) → slice_get order.now i ≡ Some r → r < length self.old.world.roles }
        requires named { (r : ℕ) → r < length self.old.world.roles → Contains order.now r }
        requires fresh { counted self.old.world ≡ 0 }
        ensures program { self.new.program ≡ self.old.program }
        ensures run { IfOk result (λ u. IsRun self.old.program self.old.world order.now limit self.new.world) }
    {
        let role = order[0];
        let mut left = limit;
        while left > 0 {
            let alone = self.turns_alone(role, left);
            left -= alone;
            if left == 0 {
                return Ok(());
            }
            let counted = self.go_on(alloc, role)?;
            if !counted {
                return Ok(());
            }
            left -= 1;
        }
        Ok(())
    }

    /// Turns of several roles. `ahead` says of each how many turns it is ahead of those that were
    /// counted, and `asked` at which version of the messages it was last found still: none at first.
    /// While the version is the same, who was still is.
    fn run_several(
        &mut self,
        alloc: Global,
        order: &[u32],
        limit: u32,
        ahead: &mut [u32],
        asked: &mut [u64],
    ) -> Result<(), Memory>
        requires numbers { (i : ℕ) (r : ℕ) → slice_get order.now i ≡ Some r → r < length self.old.world.roles }
        requires named { (r : ℕ) → r < length self.old.world.roles → Contains order.now r }
        requires fresh { counted self.old.world ≡ 0 }
        requires ahead { ahead.old ≡ replicate (length self.old.world.roles) 0 }
        requires asked { asked.old ≡ replicate (length self.old.world.roles) 0 }
        ensures program { self.new.program ≡ self.old.program }
        ensures run { IfOk result (λ u. IsRun self.old.program self.old.world order.now limit self.new.world) }
    {
        let mut left = limit;
        let mut idle = 0;
        let mut next = 0;
        let mut version = 1;
        let often = often_in_a_cycle(order, ahead.len());
        while left > 0 && idle < order.len() {
            let role = order[next];
            let place = role as usize;
            if next == 0 && ahead[place] > 1 {
                let cycles = cycles_at_once(order, ahead, often, left);
                if cycles > 0 {
                    left -= count_cycles(order, ahead, cycles);
                    idle = 0;
                    continue;
                }
            }
            next = following(next, order.len());
            if ahead[place] > 0 {
                let come = come_at_once(ahead[place], idle, order.len());
                ahead[place] -= come;
                left -= come;
                idle = 0;
                continue;
            }
            if asked[place] == version {
                idle += 1;
                continue;
            }
            let counted = self.take_at_once(alloc, role, order.len(), left)?;
            if counted == 0 {
                asked[place] = version;
                idle += 1;
                continue;
            }
            version = version_behind(version, counted, self.last_moved());
            ahead[place] = counted - 1;
            left -= 1;
            idle = 0;
        }
        Ok(())
    }

    /// Takes turns in this order, repeated as a cycle, up to the first moment at which the world
    /// rests or `limit` instructions were counted.
    ///
    /// # Errors
    /// `Memory` only.
    pub fn run(&mut self, alloc: Global, order: &[u32], limit: u32) -> Result<(), Memory>
        requires numbers { (i : ℕ) (r : ℕ) → slice_get order.now i ≡ Some r → r < length self.old.world.roles }
        requires named { (r : ℕ) → r < length self.old.world.roles → Contains order.now r }
        requires fresh { counted self.old.world ≡ 0 }
        ensures program { self.new.program ≡ self.old.program }
        ensures run { IfOk result (λ u. IsRun self.old.program self.old.world order.now limit self.new.world) }
    {
        if order.len() == 1 {
            return self.run_one(alloc, order, limit);
        }
        let mut ahead = vec![in alloc; 0u32; self.roles.len()]?;
        let mut asked = vec![in alloc; 0u64; self.roles.len()]?;
        self.run_several(
            alloc,
            order,
            limit,
            ahead.as_mut_slice(),
            asked.as_mut_slice(),
        )
    }
}
