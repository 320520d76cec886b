//! The world as other crates see it.
//! A turn is one step of a role's machine; whoever waits or has ended changes nothing.

ghost use Rattle.std.specs.Prelude.{◌≡◌, false, ◌+◌, ◌<◌, ◌≤◌, ◌^◌, ◌-◌, ◌++◌, ◌↔◌, [], length, map, option_map, slice_get, IsTrue, IfOk, OnErr};
ghost use Rattle.std.specs.Prelude.{IfSome};
ghost use Rattle.std.specs.Bool.{OnFalse};
ghost use Rattle.std.specs.List.{IsDistinct, AllByRecursion};
ghost use Rattle.std.specs.Str.{bytes_eq};
ghost use Rattle.vm_step.specs.Main.{HasMain};
ghost use Rattle.vm_events.specs.Seen.{Grows};
ghost use Rattle.vm_world_law.specs.World as model;
ghost use Rattle.vm_world_law.specs.Turns.{over_in, Advances};
ghost use Rattle.vm_world.specs.Alone.{TurnsAlone};
ghost use Rattle.vm_world.specs.Resting.{GoesOn};
ghost use Rattle.vm_world.specs.Telling.{KindMovesNone, LastMovesNone};
ghost use Rattle.vm_world.specs.View.{roles_of, ending_in};
ghost use Rattle.vm_model.specs.Machine.{noted};
ghost use Rattle.cls_verify.specs.Typing.{AllTypable};
ghost use Rattle.vm_world.specs.Typed.{IsTyped};
ghost use Rattle.vm_world.specs.Told.{WorldTells};

use crate::names::MethodNames;
use crate::role::{Role, State, Taken, count_turn, take_turn, tell, turns_alone};
use mg_text::{Ending, Event, List, Memory, Text};
use std::alloc::Global;
use std::marker::Model;
use vm_events::{Events, Kind};
use vm_flat::{FlatProgram, flatten};
use vm_model::{Linked, Ports};
use vm_step::Machine;
use vm_world_law::{RoleMain, Turned};

/// Roles that run one program, the messages on their way, and the events of all roles in their order.
pub struct World {
    linked: Linked,
    /// The flat form of the program, where each of its methods is known to have a typing.
    flat: Option<FlatProgram>,
    ports: Ports,
    pub(crate) roles: Vec<Role>,
    events: Events,
    /// The names of the program's methods, by the numbers of texts that the events keep.
    names: MethodNames,
}

// One call lets go of it, wherever a function ends.
impl Drop for World {
    fn drop(self) {
        let World {
            linked: _,
            flat: _,
            ports: _,
            roles: _,
            events: _,
            names: _,
        } = self;
    }
}

impl Model for World {
    ghost use Rattle.std.specs.Prelude.{◌<◌, ◌^◌, length};
    ghost use Rattle.vm_world.specs.Seen.{Seen};
    ghost use Rattle.vm_world.specs.View.{roles_of};

    ghost Value = { Seen };

    ghost view = { λ w. record {
      program = w.linked;
      world = record { roles = roles_of w.roles.items; messages = w.ports; events = w.events.items };
    } };

    ghost use Rattle.vm_world.specs.Typed.{SuitsWhereFlat};
    ghost use Rattle.vm_world.specs.Names.{AreNames};

    ghost invariant = { λ w. ((length w.roles.items < 2 ^ 32) × SuitsWhereFlat w.linked (roles_of w.roles.items) w.flat)
        × AreNames w.events.texts w.names w.linked };
}

/// The machines of these roles, each at its `main`.
fn begun(alloc: Global, linked: &Linked, mains: &[RoleMain]) -> Result<Vec<Role>, Memory>
    requires { AllByRecursion (λ m. HasMain linked.now m.class) mains.now }
    ensures many { IfOk result (λ roles. length roles.items ≡ length mains.now) }
    ensures begun { IfOk result (λ roles. model.StartAt linked.now mains.now (roles_of roles.items)) }
{
    let mut roles = Vec::new(alloc);
    for main in mains {
        let machine = Machine::start(alloc, linked, main.class.as_str())?;
        roles.push(Role {
            state: State::Runs(machine),
            count: 0,
        })?;
    }
    Ok(roles)
}

/// The names of these roles.
fn names_of(alloc: Global, mains: &[RoleMain]) -> Result<List<Text>, Memory>
    ensures { IfOk result (λ names. names.items ≡ map (λ m. m.role) mains.now) }
{
    let mut names = List::new(alloc);
    for main in mains {
        names.push(main.role.copy()?)?;
    }
    Ok(names)
}

/// The flat form of a program, where each of its methods is known to have a typing.
fn flat_where(alloc: Global, linked: &Linked, typed: bool) -> Result<Option<FlatProgram>, Memory>
    requires { IsTrue typed → AllTypable linked.now }
    ensures { IfOk result (λ flat. IfSome flat (IsTyped linked.now)) }
{
    if !typed {
        return Ok(None);
    }
    let flat = flatten(alloc, linked)?;
    Ok(Some(flat))
}

/// Whether an event of this kind sends a message or takes one.
fn is_of_message(kind: Kind) -> bool
    ensures { OnFalse result (KindMovesNone kind) }
{
    match kind {
        Kind::Send => true,
        Kind::Take => true,
        Kind::Print | Kind::Made | Kind::Enter | Kind::Leave | Kind::Look => false,
    }
}

/// Keeps an event of a role, for which there is room.
fn note(events: &mut Events, alloc: Global, role: u32, event: Option<Event>)
    requires { 0 < events.old.spare }
    ensures items { events.new.items ≡ events.old.items ++ map (model.of_role role) (noted event) }
    ensures texts { Grows events.old.texts events.new.texts }
{
    match event {
        Some(event) => events.add(alloc, role, event),
        None => {}
    }
}

impl World {
    /// The world of these roles before the first turn: each at the `main` of its class, and no
    /// message on its way. Where each method of the program has a typing, which `typed` says,
    /// roles take their steps without most of the tests that typings have made, and protocol methods
    /// begin and are left without a general turn.
    ///
    /// # Errors
    /// `Memory` only.
    pub fn new(
        alloc: Global,
        linked: Linked,
        mains: &[RoleMain],
        typed: bool,
    ) -> Result<World, Memory>
        requires typable { IsTrue typed → AllTypable linked }
        requires distinct { IsDistinct bytes_eq (map (λ m. m.role) mains.now) }
        requires mains { AllByRecursion (λ m. HasMain linked m.class) mains.now }
        ensures program { IfOk result (λ w. w.program ≡ linked) }
        ensures begun { IfOk result (λ w. model.IsBegun w.program mains.now w.world) }
    {
        let mut events = Events::new(alloc)?;
        let names_of_methods = MethodNames::of(alloc, &linked, &mut events)?;
        let names = names_of(alloc, mains)?;
        let ports = Ports::new(alloc, names.as_slice())?;
        let roles = begun(alloc, &linked, mains)?;
        let flat = flat_where(alloc, &linked, typed)?;
        Ok(World {
            linked,
            flat,
            ports,
            roles,
            events,
            names: names_of_methods,
        })
    }

    /// A turn of a role.
    ///
    /// # Errors
    /// `Memory` only, and then nothing has changed.
    pub fn turn(&mut self, alloc: Global, role: u32) -> Result<Turned, Memory>
        requires number { role < length self.old.world.roles }
        requires count { IfSome (slice_get self.old.world.roles role) (λ r. r.count < 2 ^ 32 - 1) }
        ensures program { self.new.program ≡ self.old.program }
        ensures ok { IfOk result (λ t. self.new.world ≡ model.turn self.old.program self.old.world role) }
        ensures turned { IfOk result (λ t. Some t ≡ model.turned self.old.program self.old.world role) }
        ensures err { OnErr result (self.new ≡ self.old) }
    {
        self.events.reserve()?;
        let taken = take_turn(
            &mut self.roles[role as usize],
            alloc,
            &self.linked,
            &self.flat,
            &mut self.ports,
            role,
        )?;
        let Taken { turned, event } = taken;
        note(&mut self.events, alloc, role, event);
        Ok(turned)
    }

    /// A turn of a role that hasn't ended. The answer is whether an instruction was counted.
    ///
    /// # Errors
    /// `Memory` only.
    pub(crate) fn count_turn(&mut self, alloc: Global, role: u32) -> Result<bool, Memory>
        requires number { role < length self.old.world.roles }
        requires count { IfSome (slice_get self.old.world.roles role) (λ r. r.count < 2 ^ 32 - 1) }
        requires runs { over_in self.old.world role ≡ false }
        ensures program { self.new.program ≡ self.old.program }
        ensures advances { IfOk result (λ b. Advances self.old.program self.old.world role self.new.world b) }
    {
        self.events.reserve()?;
        count_turn(
            &mut self.roles[role as usize],
            alloc,
            &self.linked,
            &self.flat,
            &mut self.ports,
            &mut self.events,
            role,
        )
    }

    /// The turn of a role that begins a protocol method of an object or leaves one, where that is known to need no test and no memory.
    /// The answer is whether it was taken; where it wasn't, nothing has changed.
    ///
    /// # Errors
    /// `Memory` only, for the event, and then nothing has changed.
    pub(crate) fn tell(&mut self, role: u32) -> Result<bool, Memory>
        requires number { role < length self.old.world.roles }
        requires count { IfSome (slice_get self.old.world.roles role) (λ r. r.count < 2 ^ 32 - 1) }
        ensures program { self.new.program ≡ self.old.program }
        ensures told { IfOk result (λ told. WorldTells self.old.program self.old.world role told self.new.world) }
        ensures err { OnErr result (self.new ≡ self.old) }
    {
        let Some(flat) = &self.flat else {
            return Ok(false);
        };
        self.events.reserve()?;
        let Some(telling) = tell(&mut self.roles[role as usize], &self.linked, flat) else {
            return Ok(false);
        };
        self.events.note(role, self.names.numbered(telling));
        Ok(true)
    }

    /// Turns of a role whose steps are frequent ones that tell nothing, at most so many. The answer
    /// is how many they were.
    #[inline(always)]
    pub(crate) fn turns_alone(&mut self, role: u32, most: u32) -> u32
        requires number { role < length self.old.world.roles }
        requires count { IfSome (slice_get self.old.world.roles role) (λ r. r.count + most < 2 ^ 32) }
        ensures program { self.new.program ≡ self.old.program }
        ensures most { result ≤ most }
        ensures turns { TurnsAlone self.old.program self.old.world role result self.new.world }
    {
        let one = &mut self.roles[role as usize];
        turns_alone(one, &self.linked, &self.flat, most)
    }

    /// The role for whose message the next instruction of a role waits, where that hasn't ended.
    pub fn waits(&self, role: u32) -> Option<u32>
        requires { role < length self.now.world.roles }
        ensures { result ≡ model.waits self.now.program self.now.world role }
    {
        match &self.roles[role as usize].state {
            State::Runs(machine) => machine.waits(&self.linked, &self.ports, role),
            State::Over(_ending) => None,
        }
    }

    /// Whether the next instruction of a role goes on or ends it.
    fn goes_on(&self, role: u32) -> bool
        requires { role < length self.now.world.roles }
        ensures { GoesOn self.now.program self.now.world role result }
    {
        if self.is_over(role) {
            return false;
        }
        match self.waits(role) {
            Some(_peer) => false,
            None => true,
        }
    }

    /// Whether every role has ended, or waits for a message.
    pub fn at_rest(&self) -> bool
        ensures { IsTrue result ↔ model.Rests self.now.program self.now.world }
    {
        let count = self.roles.len() as u32;
        for role in 0..count {
            if self.goes_on(role) {
                return false;
            }
        }
        true
    }

    /// The events of all roles, in their order.
    pub fn events(&self) -> &Events
        ensures { result.now.items ≡ self.now.world.events }
    {
        &self.events
    }

    /// Whether the last event is of a message that was sent or taken.
    pub(crate) fn last_moved(&self) -> bool
        ensures { OnFalse result (LastMovesNone self.now.world.events) }
    {
        let events = self.events();
        let count = events.len();
        if count == 0 {
            return false;
        }
        is_of_message(events.kind_at(count - 1))
    }

    /// How many instructions of a role were counted.
    pub fn steps(&self, role: u32) -> u64
        requires { role < length self.now.world.roles }
        ensures { Some result ≡ option_map (λ r. r.count) (slice_get self.now.world.roles role) }
    {
        self.roles[role as usize].count
    }

    /// Whether a role has ended.
    pub(crate) fn is_over(&self, role: u32) -> bool
        requires { role < length self.now.world.roles }
        ensures { result ≡ over_in self.now.world role }
    {
        match &self.roles[role as usize].state {
            State::Runs(_machine) => false,
            State::Over(_ending) => true,
        }
    }

    /// How a role ended, where it has.
    pub fn ending(&self, role: u32) -> Option<&Ending>
        requires { role < length self.now.world.roles }
        ensures { Some (option_map (λ e. e.now) result) ≡ option_map ending_in (slice_get self.now.world.roles role) }
    {
        match &self.roles[role as usize].state {
            State::Runs(_machine) => None,
            State::Over(ending) => Some(ending),
        }
    }
}
