//! The faults of the readers, as refusals. Want of memory stays that.

ghost use Rattle.std.specs.Prelude.{◌≡◌, Err};
ghost use Rattle.scr_read.specs.Outcome.{fault_answer as protocol_answer};
ghost use Rattle.ts_read.specs.Outcome.{answer_of as typestate_answer};
ghost use Rattle.jv_read.specs.Outcome.{fault_answer as java_answer};
ghost use Rattle.mg_refusal.specs.Order.{IsStopOf};
ghost use Rattle.mg_refusal.specs.Refusals.{refusal_at};
ghost use Rattle.scr_tree.specs.Faults.{condition_word};
ghost use Rattle.mg_sources.specs.Reading.{IsSaidOfProtocol, IsSaidOfTypestate, IsSaidOfJava};

use jv_read::JavaFault;
use mg_refusal::Stop;
use mg_text::{Place, Text};
use scr_read::ScrFault;
use scr_tree::Condition;
use ts_read::TsFault;

/// The refusal of a file of a protocol, at the place of the fault.
pub fn stop_of_protocol(fault: ScrFault) -> Stop
    ensures { IsStopOf (IsSaidOfProtocol (λ place. fault ≡ ScrFault.Syntax place)) (protocol_answer fault) result }
{
    match fault {
        ScrFault::TooLarge { place } => Stop::at("TooLarge", place),
        ScrFault::BadByte { place } => Stop::at("BadByte", place),
        ScrFault::Unsupported { place, name } => Stop::named("Unsupported", place, name),
        ScrFault::Syntax { place } => Stop::at("Syntax", place),
        ScrFault::Unmet {
            condition,
            place,
            name,
        } => stop_of_condition(condition, place, name),
        ScrFault::Memory => Stop::Memory,
    }
}

/// The refusal by a condition that isn't met, with what is named; an empty name names nothing.
pub fn stop_of_condition(condition: Condition, place: Place, name: Text) -> Stop
    ensures { result ≡ Stop.Refused (refusal_at (condition_word condition) place name) }
{
    Stop::named(condition.word(), place, name)
}

/// The refusal of a file of a typestate.
pub(crate) fn stop_of_typestate(fault: TsFault) -> Stop
    ensures { IsStopOf (IsSaidOfTypestate (λ place. fault ≡ TsFault.Syntax place)) (typestate_answer (Err fault)) result }
{
    match fault {
        TsFault::TooLarge { place } => Stop::at("TooLarge", place),
        TsFault::BadByte { place } => Stop::at("BadByte", place),
        TsFault::Syntax { place } => Stop::at("Syntax", place),
        TsFault::DuplicateState { place, name } => Stop::named("DuplicateState", place, name),
        TsFault::UnknownState { place, name } => Stop::named("UnknownState", place, name),
        TsFault::DuplicateMethod { place, name } => Stop::named("DuplicateMethod", place, name),
        TsFault::SignatureDiffers { place, name } => Stop::named("SignatureDiffers", place, name),
        TsFault::DuplicateLabel { place, name } => Stop::named("DuplicateLabel", place, name),
        TsFault::ReservedEnd { place, name } => Stop::named("ReservedEnd", place, name),
        TsFault::Memory => Stop::Memory,
    }
}

/// The refusal of a file of classes.
pub(crate) fn stop_of_java(fault: JavaFault) -> Stop
    ensures { IsStopOf (IsSaidOfJava (λ place. fault ≡ JavaFault.Syntax place)) (java_answer fault) result }
{
    match fault {
        JavaFault::TooLarge { place } => Stop::at("TooLarge", place),
        JavaFault::BadByte { place } => Stop::at("BadByte", place),
        JavaFault::OpenComment { place } => Stop::at("OpenComment", place),
        JavaFault::OpenText { place } => Stop::at("OpenText", place),
        JavaFault::BadEscape { place } => Stop::at("BadEscape", place),
        JavaFault::BadNumber { place } => Stop::at("BadNumber", place),
        JavaFault::Unsupported { place, name } => Stop::named("Unsupported", place, name),
        JavaFault::Syntax { place } => Stop::at("Syntax", place),
        JavaFault::Memory => Stop::Memory,
    }
}
