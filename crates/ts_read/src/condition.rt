//! The conditions of a typestate file beyond its grammar, in the order of their numbers.
//! The definitions say which name breaks which.

/// A condition that a typestate file can break.
#[derive(Clone, Copy)]
pub enum Condition {
    /// Two states have one name.
    DuplicateState,
    /// A target is no state.
    UnknownState,
    /// A method stands twice in a state, or `drop: end` does.
    DuplicateMethod,
    /// One method name has two results or parameter lists.
    SignatureDiffers,
    /// A label stands twice in one list.
    DuplicateLabel,
    /// A state is named `end`.
    ReservedEnd,
}
