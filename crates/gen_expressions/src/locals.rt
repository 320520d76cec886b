//! The slots in scope, and the local of each.
//! Contracts see them as a list, the last one first.

ghost use Rattle.std.specs.Prelude.{◌≡◌, ◌∷◌, ◌-◌, ◌+◌, [], IfOk, OnOk, length, drop, reverse};
ghost use Rattle.jv_core.specs.Numbering.{numbers_from};
ghost use Rattle.gen_rules.specs.Locals.{first_local, next_local, local_of};

use jv_core::MethodKind;
use mg_text::Memory;
use std::alloc::Global;
use std::marker::Model;

/// The slots in scope. The first has the local behind the object or the array of the method.
#[derive(Drop)]
pub struct Locals {
    slots: Vec<u32>,
}

impl Model for Locals {
    ghost use Rattle.std.specs.Prelude.{List, ℕ, reverse};

    ghost Value = { List ℕ };

    ghost view = { λ l. reverse l.slots.items };
}

// The first local of a slot in a method of this kind.
fn first_local(kind: MethodKind) -> u32
    ensures { result ≡ first_local kind }
{
    match kind {
        MethodKind::Static => 0,
        _ => 1,
    }
}

/// The local behind so many slots, in a method of this kind.
///
/// # Errors
/// `Memory` only.
pub fn local_at(kind: MethodKind, slots: usize) -> Result<u32, Memory>
    ensures { IfOk result (λ n. n ≡ first_local kind + slots) }
{
    let Ok(slots) = u32::try_from(slots) else {
        return Err(Memory);
    };
    let Some(local) = first_local(kind).checked_add(slots) else {
        return Err(Memory);
    };
    Ok(local)
}

// The local of a slot where these are in scope, the last one innermost.
#[tactic(auto, using(crate::proofs::Loops::scopes))]
fn local_in(slots: &[u32], kind: MethodKind, slot: u32) -> Result<u32, Memory>
    ensures { IfOk result (λ n. n ≡ local_of kind (reverse slots.now) slot) }
{
    let mut below = slots.len();
    while below > 0 {
        below -= 1;
        if slots[below] == slot {
            let local = local_at(kind, below)?;
            return Ok(local);
        }
    }
    Ok(0)
}

impl Locals {
    /// No slots.
    pub(crate) fn new(alloc: Global) -> Locals
        ensures { result ≡ [] }
    {
        Locals {
            slots: Vec::new(alloc),
        }
    }

    /// How many slots are in scope.
    pub fn len(&self) -> usize
        ensures { result ≡ length self.now }
    {
        self.slots.len()
    }

    /// The next local that is free, in a method of this kind.
    ///
    /// # Errors
    /// `Memory` only.
    pub fn next(&self, kind: MethodKind) -> Result<u32, Memory>
        ensures { IfOk result (λ n. n ≡ next_local kind self.now) }
    {
        local_at(kind, self.slots.len())
    }

    /// The local of a slot, in a method of this kind.
    pub(crate) fn local_of(&self, kind: MethodKind, slot: u32) -> Result<u32, Memory>
        ensures { IfOk result (λ n. n ≡ local_of kind self.now slot) }
    {
        local_in(self.slots.as_slice(), kind, slot)
    }

    /// One more slot is in scope.
    ///
    /// # Errors
    /// `Memory` only.
    pub fn declare(&mut self, slot: u32) -> Result<(), Memory>
        ensures { OnOk result (self.new ≡ slot ∷ self.old) }
    {
        self.slots.push(slot)?;
        Ok(())
    }

    /// The first `len` slots stay in scope.
    pub fn truncate(&mut self, len: usize)
        ensures { self.new ≡ drop (length self.old - len) self.old }
    {
        self.slots.truncate(len);
    }
}

/// The parameters of a method, which are its first slots.
///
/// # Errors
/// `Memory` only.
#[tactic(auto, using(crate::proofs::Loops::params_more))]
pub fn params(alloc: Global, count: u32) -> Result<Locals, Memory>
    ensures { IfOk result (λ l. l ≡ reverse (numbers_from 0 count)) }
{
    let mut locals = Locals::new(alloc);
    for slot in 0..count {
        locals.declare(slot)?;
    }
    Ok(locals)
}
