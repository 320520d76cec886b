//! Why class files can't be generated.

ghost use Rattle.std.specs.Prelude.{◌≡◌, None, Some, drop, OnOk, IfErr};
ghost use Rattle.gen_rules.specs.Limits.{exceeded};
ghost use Rattle.gen_members.specs.ToldLimits.{limit_of};
ghost use Rattle.gen_members.specs.Told.{Tells};
ghost use Rattle.gen_members.specs.Parts.{excess_at};

use crate::exceeding::{Limit, first_exceeded};
use gen_pool::Pool;
use mg_text::{Memory, Place, Text};
use std::alloc::Global;

/// Why class files can't be generated: the first size that is too large, with the place and the name
/// of the method, or of the class where it isn't a written method's.
#[derive(Debug, Drop)]
pub enum GenFault {
    /// Code of over 32,767 bytes.
    CodeTooLong { place: Place, name: Text },
    /// Over 255 locals.
    TooManyLocals { place: Place, name: Text },
    /// A pool of over 65,534 constants.
    PoolFull { place: Place, name: Text },
    /// A text of over 65,535 bytes in modified UTF-8.
    TextTooLong { place: Place, name: Text },
    /// Want of memory.
    Memory,
}

impl From<Memory> for GenFault {
    ghost use Rattle.std.specs.Prelude.{◌≡◌};
    ghost use Rattle.gen_members.specs.declared.faults.GenFault.TheVariants as faults;

    ghost from_gives = { λ _ e. e ≡ faults.Memory };

    fn from(_memory: Memory) -> GenFault {
        GenFault::Memory
    }
}

/// Tells a limit that is exceeded, with its place and name.
pub(crate) fn gen_fault(alloc: Global, limit: Limit, place: Place, name: &str) -> GenFault
    ensures { Tells (Some (record { limit = limit_of limit; place = place; name = name.now })) result }
{
    let Ok(name) = Text::of(alloc, name) else {
        return GenFault::Memory;
    };
    match limit {
        Limit::CodeTooLong => GenFault::CodeTooLong { place, name },
        Limit::TooManyLocals => GenFault::TooManyLocals { place, name },
        Limit::PoolFull => GenFault::PoolFull { place, name },
        Limit::TextTooLong => GenFault::TextTooLong { place, name },
    }
}

/// Where what is too large in a part of a class is told, and under which name.
#[derive(Clone, Copy)]
pub(crate) struct Telling<'a> {
    pub place: Place,
    pub name: &'a str,
}

/// Judges a part of a class: code of so many bytes with so many locals, and the pool, which had
/// `old` constants before it.
pub(crate) fn judge(
    alloc: Global,
    telling: Telling<'_>,
    code_size: usize,
    locals: u32,
    pool: &Pool,
    old: usize,
) -> Result<(), GenFault>
    ensures fine { OnOk result (exceeded code_size locals pool.now (drop old pool.now) ≡ None) }
    ensures fault { IfErr result (λ e. Tells
        (excess_at telling.entry.place telling.entry.name.now (exceeded code_size locals pool.now (drop old pool.now))) e) }
{
    match first_exceeded(code_size, locals, pool, old) {
        None => Ok(()),
        Some(limit) => Err(gen_fault(alloc, limit, telling.place, telling.name)),
    }
}
