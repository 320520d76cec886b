//! Sizes that are too large, as refusals. Want of memory stays that.

ghost use Rattle.std.specs.Prelude.{◌≡◌};
ghost use Rattle.mg_refusal.specs.Order.{IsStopOf};
ghost use Rattle.mg_compile.specs.Compiled.{excess_refusal};
ghost use Rattle.mg_compile.specs.inner.Answers.{excess_in};

use gen_class::GenFault;
use mg_refusal::Stop;

/// The refusal by a size that is too large.
pub(crate) fn stop_of(fault: GenFault) -> Stop
    ensures { IsStopOf (λ e r. r ≡ excess_refusal e) (excess_in fault) result }
{
    match fault {
        GenFault::CodeTooLong { place, name } => Stop::named("CodeTooLong", place, name),
        GenFault::TooManyLocals { place, name } => Stop::named("TooManyLocals", place, name),
        GenFault::PoolFull { place, name } => Stop::named("PoolFull", place, name),
        GenFault::TextTooLong { place, name } => Stop::named("TextTooLong", place, name),
        GenFault::Memory => Stop::Memory,
    }
}
