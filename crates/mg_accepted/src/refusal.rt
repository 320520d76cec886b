//! Type faults, as refusals. Want of memory stays that.

ghost use Rattle.std.specs.Prelude.{◌≡◌};
ghost use Rattle.jv_types.specs.Outcome.{fault_told};
ghost use Rattle.mg_refusal.specs.Order.{IsStopOf};
ghost use Rattle.mg_accepted.specs.Program.{type_refusal};

use jv_types::TypeFault;
use mg_refusal::Stop;

/// The refusal by a type fault.
pub(crate) fn stop_of(fault: TypeFault) -> Stop
    ensures { IsStopOf (λ f r. r ≡ type_refusal f) (fault_told fault) result }
{
    match fault {
        TypeFault::DuplicateName { place, name } => Stop::named("DuplicateName", place, name),
        TypeFault::DuplicateMember { place, name } => Stop::named("DuplicateMember", place, name),
        TypeFault::UnknownClass { place, name } => Stop::named("UnknownClass", place, name),
        TypeFault::UnknownTypestate { place, name } => Stop::named("UnknownTypestate", place, name),
        TypeFault::MissingMethod { place, name } => Stop::named("MissingMethod", place, name),
        TypeFault::SignatureDiffers { place, name } => Stop::named("SignatureDiffers", place, name),
        TypeFault::LabelsDiffer { place, name } => Stop::named("LabelsDiffer", place, name),
        TypeFault::FieldNeedsValue { place, name } => Stop::named("FieldNeedsValue", place, name),
        TypeFault::InstanceInPlain { place, name } => Stop::named("InstanceInPlain", place, name),
        TypeFault::UnknownName { place, name } => Stop::named("UnknownName", place, name),
        TypeFault::DuplicateLocal { place, name } => Stop::named("DuplicateLocal", place, name),
        TypeFault::TypeMismatch { place, name } => Stop::named("TypeMismatch", place, name),
        TypeFault::Arity { place, name } => Stop::named("Arity", place, name),
        TypeFault::BadLabel { place, name } => Stop::named("BadLabel", place, name),
        TypeFault::MissingReturn { place, name } => Stop::named("MissingReturn", place, name),
        TypeFault::SelfCall { place, name } => Stop::named("SelfCall", place, name),
        TypeFault::ThisAsValue { place, name } => Stop::named("ThisAsValue", place, name),
        TypeFault::ArgsMayMove { place, name } => Stop::named("ArgsMayMove", place, name),
        TypeFault::Memory => Stop::Memory,
    }
}
