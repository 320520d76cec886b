//! The conditions that a program meets beside its grammar, by what they refuse.
//! They stand in the order of their numbers.

/// A condition, by what it refuses. The first nine are judged over the declarations, the others
/// over the methods.
#[derive(Clone, Copy)]
pub enum Condition {
    /// Two classes or enums have one name, or two typestates, or a class or enum has the name of
    /// a class that is built in.
    DuplicateName,
    /// Two fields, two methods or two constants of one declaration share a name.
    DuplicateMember,
    /// A written type is no enum and no class with a typestate, or the class of `new` is no class
    /// with a typestate.
    UnknownClass,
    /// `@Typestate` names no typestate.
    UnknownTypestate,
    /// A method of the typestate is no instance method of the class.
    MissingMethod,
    /// A method has another result or other parameters than its typestate has.
    SignatureDiffers,
    /// A method answers with labels, but its result is no enum with exactly these constants.
    LabelsDiffer,
    /// A field of type String or of an enum has no initialiser, or an initialiser is no constant
    /// of the field's type.
    FieldNeedsValue,
    /// A field or an instance method stands in a class without a typestate.
    InstanceInPlain,
    /// A name names nothing that is visible or callable there.
    UnknownName,
    /// A local or a parameter has the name of one in scope.
    DuplicateLocal,
    /// A value has another type than is taken.
    TypeMismatch,
    /// The number of arguments differs from that of the parameters.
    Arity,
    /// `break` or `continue` has no such target, a label is that of a loop around, a case is no
    /// constant of the enum or stands twice, or a switch has two defaults.
    BadLabel,
    /// The body of a method with a result can complete.
    MissingReturn,
    /// A method of the protocol is called on `this` or without a receiver.
    SelfCall,
    /// `this` stands other than before a dot and a name.
    ThisAsValue,
    /// A call on an own field has a call of a helper inside its arguments.
    ArgsMayMove,
}
