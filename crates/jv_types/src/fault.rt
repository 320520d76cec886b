//! Why a program is refused by a type condition.
//! Each fault has its place, and the name that is at fault, which is empty where there is none.

ghost use Rattle.std.specs.Prelude.{◌≡◌, Option, Some};
ghost use Rattle.mg_read.specs.Culprit.{Culprit, culprit};
ghost use Rattle.jv_rules.specs.declared.condition.Condition.{Condition as Kind};
ghost use Rattle.jv_types.specs.Outcome.{fault_told, TellsFault};
ghost use Rattle.jv_types.specs.inner.Judging.{Tells};

use crate::judged::Wrong;
use jv_rules::Condition;
use mg_text::{Memory, Place, Text};
use std::alloc::Global;

/// Why a program is refused. The first nine are judged over the declarations, in the order of
/// their numbers, the others over the methods, in the order of the text.
#[derive(Debug, Drop)]
pub enum TypeFault {
    /// Two classes or enums have one name, or two typestates, or a class or enum has the name of
    /// a class that is built in.
    DuplicateName { place: Place, name: Text },
    /// Two fields, two methods or two constants of one declaration share a name.
    DuplicateMember { place: Place, name: Text },
    /// A written type is no enum and no class with a typestate, or the class of `new` is no class
    /// with a typestate.
    UnknownClass { place: Place, name: Text },
    /// `@Typestate` names no typestate.
    UnknownTypestate { place: Place, name: Text },
    /// A method of the typestate is no instance method of the class.
    MissingMethod { place: Place, name: Text },
    /// A method has another result or other parameters than its typestate has.
    SignatureDiffers { place: Place, name: Text },
    /// A method answers with labels, but its result is no enum with exactly these constants.
    LabelsDiffer { place: Place, name: Text },
    /// A field of type String or of an enum has no initialiser, or an initialiser is no constant
    /// of the field's type.
    FieldNeedsValue { place: Place, name: Text },
    /// A field or an instance method stands in a class without a typestate.
    InstanceInPlain { place: Place, name: Text },
    /// A name names nothing that is visible or callable there.
    UnknownName { place: Place, name: Text },
    /// A local or a parameter has the name of one in scope.
    DuplicateLocal { place: Place, name: Text },
    /// A value has another type than is taken.
    TypeMismatch { place: Place, name: Text },
    /// The number of arguments differs from that of the parameters.
    Arity { place: Place, name: Text },
    /// `break` or `continue` has no such target, a label is that of a loop around, a case is no
    /// constant of the enum or stands twice, or a switch has two defaults.
    BadLabel { place: Place, name: Text },
    /// The body of a method with a result can complete.
    MissingReturn { place: Place, name: Text },
    /// A method of the protocol is called on `this` or without a receiver.
    SelfCall { place: Place, name: Text },
    /// `this` stands other than before a dot and a name.
    ThisAsValue { place: Place, name: Text },
    /// A call on an own field has a call of a helper inside its arguments.
    ArgsMayMove { place: Place, name: Text },
    /// Want of memory.
    Memory,
}

impl From<Memory> for TypeFault {
    ghost use Rattle.std.specs.Prelude.{◌≡◌};
    ghost use Rattle.jv_types.specs.declared.fault.TypeFault.TheVariants.{Memory as Want};

    ghost from_gives = { λ _ e. e ≡ Want };

    fn from(_memory: Memory) -> TypeFault {
        TypeFault::Memory
    }
}

// The fault of a condition, with a name of its own.
fn with_name(condition: Condition, place: Place, name: Text) -> TypeFault
    ensures { fault_told result ≡ Some (condition, culprit place name) }
{
    match condition {
        Condition::DuplicateName => TypeFault::DuplicateName { place, name },
        Condition::DuplicateMember => TypeFault::DuplicateMember { place, name },
        Condition::UnknownClass => TypeFault::UnknownClass { place, name },
        Condition::UnknownTypestate => TypeFault::UnknownTypestate { place, name },
        Condition::MissingMethod => TypeFault::MissingMethod { place, name },
        Condition::SignatureDiffers => TypeFault::SignatureDiffers { place, name },
        Condition::LabelsDiffer => TypeFault::LabelsDiffer { place, name },
        Condition::FieldNeedsValue => TypeFault::FieldNeedsValue { place, name },
        Condition::InstanceInPlain => TypeFault::InstanceInPlain { place, name },
        Condition::UnknownName => TypeFault::UnknownName { place, name },
        Condition::DuplicateLocal => TypeFault::DuplicateLocal { place, name },
        Condition::TypeMismatch => TypeFault::TypeMismatch { place, name },
        Condition::Arity => TypeFault::Arity { place, name },
        Condition::BadLabel => TypeFault::BadLabel { place, name },
        Condition::MissingReturn => TypeFault::MissingReturn { place, name },
        Condition::SelfCall => TypeFault::SelfCall { place, name },
        Condition::ThisAsValue => TypeFault::ThisAsValue { place, name },
        Condition::ArgsMayMove => TypeFault::ArgsMayMove { place, name },
    }
}

/// The fault of what is wrong. Where memory runs out it is `Memory`.
pub(crate) fn fault_of(alloc: Global, wrong: Wrong<'_>) -> TypeFault
    ensures { (fault : Option (Kind × Culprit)) → Tells wrong.entry fault → TellsFault (λ r. r ≡ fault) result }
{
    match wrong {
        Wrong::Memory => TypeFault::Memory,
        Wrong::Fault(condition, place, name) => match Text::of(alloc, name) {
            Ok(name) => with_name(condition, place, name),
            Err(_memory) => TypeFault::Memory,
        },
    }
}
