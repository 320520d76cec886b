//! Why class files don't link, and which of several faults is answered.

ghost use Rattle.std.specs.Prelude.{◌≡◌, Option, IfOk, OnOk};
ghost use Rattle.vm_model.specs.Links.{Flaw, lower, DuplicateClass as A, UnknownClass as B, UnknownMember as C, BadDescriptor as D};
ghost use Rattle.vm_model.specs.Links.{NoCode as E};
ghost use Rattle.vm_load.specs.declared.fault.LoadFault.TheVariants as faults;
ghost use Rattle.vm_load.specs.Faults.{IsFlaw, Tells, best_flaw, flaw_of, number_of_fault};

use mg_text::{Memory, Text};
use std::alloc::Global;

/// Why class files don't link.
#[derive(Debug, Drop)]
pub enum LoadFault {
    /// Two classes have this name, or a class has the name of a built-in class.
    DuplicateClass { name: Text },
    /// No loaded or built-in class has this name, or another class was wanted.
    UnknownClass { name: Text },
    /// There is no member of this name, of the descriptor and the kind that were wanted.
    UnknownMember { name: Text },
    /// This descriptor is none that a field or a method may have.
    BadDescriptor { name: Text },
    /// The method of this name has no code.
    NoCode { name: Text },
    /// Want of memory.
    Memory,
}

impl From<Memory> for LoadFault {
    ghost use Rattle.std.specs.Prelude.{◌≡◌};
    ghost use Rattle.vm_load.specs.declared.fault.LoadFault.TheVariants as faults;

    ghost from_gives = { λ _ e. e ≡ faults.Memory };

    fn from(_memory: Memory) -> LoadFault {
        LoadFault::Memory
    }
}

/// A class of this name is there twice.
pub(crate) fn duplicate_class(alloc: Global, name: &str) -> LoadFault
    ensures { IsFlaw result (A name.now) }
{
    match Text::of(alloc, name) {
        Ok(name) => LoadFault::DuplicateClass { name },
        Err(_memory) => LoadFault::Memory,
    }
}

/// A class of this name isn't there.
pub(crate) fn unknown_class(alloc: Global, name: &str) -> LoadFault
    ensures { IsFlaw result (B name.now) }
{
    match Text::of(alloc, name) {
        Ok(name) => LoadFault::UnknownClass { name },
        Err(_memory) => LoadFault::Memory,
    }
}

/// A member of this name isn't there.
pub(crate) fn unknown_member(alloc: Global, name: &str) -> LoadFault
    ensures { IsFlaw result (C name.now) }
{
    match Text::of(alloc, name) {
        Ok(name) => LoadFault::UnknownMember { name },
        Err(_memory) => LoadFault::Memory,
    }
}

/// This is no descriptor.
pub(crate) fn bad_descriptor(alloc: Global, name: &str) -> LoadFault
    ensures { IsFlaw result (D name.now) }
{
    match Text::of(alloc, name) {
        Ok(name) => LoadFault::BadDescriptor { name },
        Err(_memory) => LoadFault::Memory,
    }
}

/// The method of this name has no code.
pub(crate) fn no_code(alloc: Global, name: &str) -> LoadFault
    ensures { IsFlaw result (E name.now) }
{
    match Text::of(alloc, name) {
        Ok(name) => LoadFault::NoCode { name },
        Err(_memory) => LoadFault::Memory,
    }
}

/// The number of a fault; want of memory has none.
fn number(fault: &LoadFault) -> u8
    ensures { result ≡ number_of_fault fault.now }
{
    match fault {
        LoadFault::DuplicateClass { .. } => 1,
        LoadFault::UnknownClass { .. } => 2,
        LoadFault::UnknownMember { .. } => 3,
        LoadFault::BadDescriptor { .. } => 4,
        LoadFault::NoCode { .. } => 5,
        LoadFault::Memory => 6,
    }
}

/// Keeps the lower of the fault so far and one that was found behind it, and the former where they
/// are equal. Want of memory is handed on.
pub(crate) fn note(best: &mut Option<LoadFault>, found: LoadFault) -> Result<(), Memory>
    ensures lower { OnOk result (best_flaw best.new ≡ lower (best_flaw best.old) (flaw_of found)) }
    ensures memory { IfOk result (λ _. found ≡ faults.Memory → ⊥) }
{
    let found = match found {
        LoadFault::Memory => return Err(Memory),
        found => found,
    };
    if let Some(kept) = best {
        if number(&found) >= number(kept) {
            drop(found);
            return Ok(());
        }
    }
    *best = Some(found);
    Ok(())
}

/// The same of what was judged: the flaw that it tells, where it tells one.
pub(crate) fn note_told(
    best: &mut Option<LoadFault>,
    judged: Result<(), LoadFault>,
) -> Result<(), Memory>
    ensures { (wanted : Option Flaw) → Tells judged wanted → OnOk result (best_flaw best.new ≡ lower (best_flaw best.old) wanted) }
{
    match judged {
        Ok(()) => Ok(()),
        Err(fault) => note(best, fault),
    }
}
