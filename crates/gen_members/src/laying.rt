//! The numbers of a code's constants, and the places of its instructions.

ghost use Rattle.std.specs.Prelude.{◌≡◌, IfOk, OnOk};
ghost use Rattle.gen_expressions.specs.View.{instrs_of};
ghost use Rattle.gen_pool.specs.Made.{IsMade, IsFrontOf};
ghost use Rattle.gen_members.specs.Laid.{laid};
ghost use Rattle.gen_members.specs.Kept.{laid_of, IsOneMore};

use crate::constants::constant;
use crate::sizes::size_at;
use gen_expressions::Symbolic;
use gen_pool::Pool;
use jv_core::Core;
use mg_text::Memory;
use std::alloc::Global;

/// A code that is laid out.
#[derive(Drop)]
pub(crate) struct Laid {
    /// The numbers of the constants in the pool, 0 for an instruction that has none.
    pub numbers: Vec<usize>,
    /// The place of each instruction, in bytes.
    pub starts: Vec<usize>,
    /// How many bytes the code takes.
    pub end: usize,
}

impl Laid {
    /// One more instruction, which has a constant of this number and takes so many bytes.
    fn push(&mut self, number: usize, size: usize) -> Result<(), Memory>
        ensures { OnOk result (IsOneMore self.old self.new number size) }
    {
        let Some(end) = self.end.checked_add(size) else {
            return Err(Memory);
        };
        self.numbers.push(number)?;
        self.starts.push(self.end)?;
        self.end = end;
        Ok(())
    }
}

/// Looks for the constants of instructions in the pool, in the order of the code, appends those
/// that are new, and lays the instructions out.
/// # Errors
/// Want of memory, and code of 2^64 bytes or more.
#[tactic(auto, using(gen_pool::proofs::Fronts::fronts))]
pub(crate) fn lay_out(
    alloc: Global,
    core: &Core,
    instrs: &[Symbolic<'_>],
    pool: &mut Pool,
) -> Result<Laid, Memory>
    ensures made { IfOk result (λ l. IsMade (laid_of l) pool.new (laid 0 (instrs_of core.now instrs.now) pool.old)) }
    ensures kept { IsFrontOf pool.old pool.new }
{
    let mut laid = Laid {
        numbers: Vec::new(alloc),
        starts: Vec::new(alloc),
        end: 0,
    };
    for instr in instrs {
        let number = constant(alloc, core, &instr.operand, pool)?;
        let size = size_at(laid.end, instr, number);
        laid.push(number, size)?;
    }
    Ok(laid)
}
