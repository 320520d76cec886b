//! The line of a program whose methods all have typings, and the refusal by a method that has none.

ghost use Rattle.std.specs.Prelude.{◌≡◌, ◌++◌, ◌∷◌, IfOk};
ghost use Rattle.mg_refusal.specs.Order.{IsStopBy};
ghost use Rattle.mg_verified.specs.Verified as told;
ghost use Rattle.mg_verified.specs.View.{untypable_in};

use cls_search::VerifyFault;
use mg_refusal::{Refusal, Stop};
use mg_text::{Memory, Text};
use std::alloc::Global;

// The line of so many methods.
pub(crate) fn verified_line(alloc: Global, count: u64) -> Result<Text, Memory>
    ensures { IfOk result (λ t. t ≡ told.verified_line count) }
{
    let mut line = String::from_str(alloc, "verified: ")?;
    write!(line, "{count}\n")?;
    Ok(Text::from_string(line))
}

// The refusal of a program by a method that has no typing; want of memory stays that.
pub(crate) fn stop_of(alloc: Global, fault: &VerifyFault) -> Stop
    ensures { IsStopBy (λ m r. r ≡ told.unverified m) (untypable_in fault.now) result }
{
    match fault {
        VerifyFault::Unverified { class, method } => {
            match name_of(alloc, class.as_str(), method.as_str()) {
                Ok(name) => Stop::Refused(Refusal::nowhere("Unverified", name)),
                Err(Memory) => Stop::Memory,
            }
        }
        VerifyFault::Memory => Stop::Memory,
    }
}

// The name of a method behind that of its class.
fn name_of(alloc: Global, class: &str, method: &str) -> Result<Text, Memory>
    ensures { IfOk result (λ t. t ≡ class.now ++ 46 ∷ method.now) }
{
    let mut name = String::from_str(alloc, class)?;
    name.push_str(".")?;
    name.push_str(method)?;
    Ok(Text::from_string(name))
}
