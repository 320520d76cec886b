//! The conditions that a protocol meets beside its grammar, local or global.

/// A condition, by what it refuses. They stand in the order in which they are judged. A global
/// protocol is judged by those before `ReservedLabel`.
#[derive(Clone, Copy, Debug)]
pub enum Condition {
    /// A role is listed twice, or a type name is declared with two classes.
    DuplicateName,
    /// The role itself, a peer or the role of a choice is not listed; of a global protocol, a
    /// sender, a receiver or the role of a choice.
    UnknownRole,
    /// A peer is the role itself; of a global protocol, sender and receiver are one role.
    PeerIsSelf,
    /// A declaration isn't of Java or of one of the three classes, or a payload isn't declared.
    UnknownType,
    /// A message has two or more payloads.
    PayloadCount,
    /// `continue X` isn't inside `rec X`.
    UnknownRec,
    /// `rec X` stands inside `rec X`.
    DuplicateRec,
    /// No message stands on a path from the opening of `rec X` to `continue X`, or a `do` stands on
    /// a cycle of protocols each of which has a `do` of the next with no message on the path from
    /// its opening.
    Unguarded,
    /// A statement stands after one that never comes to its end.
    Unreachable,
    /// A branch is empty or begins with no message.
    BranchStart,
    /// The first messages of a choice are neither all sends with the choice at the role itself,
    /// nor all receives from one role with the choice elsewhere; of a global protocol, they aren't
    /// all from the role of the choice to one role.
    MixedChoice,
    /// First messages of a choice elsewhere share a label, or of a choice at the role itself the
    /// name of a call; of a global protocol, first messages of a choice share a label.
    SameLabel,
    /// A first label of a choice elsewhere is a reserved word of Java.
    ReservedLabel,
    /// Two different actions have one call name.
    NameClash,
    /// There are more than 1,000 states. The place is the file's start.
    TooManyStates,
    /// A `do` names no protocol of the file.
    UnknownProtocol,
    /// Two protocols have one name. The place is the second's name.
    DuplicateProtocol,
    /// The roles of a protocol or the role that it is of differ from those of the first one, or the
    /// arguments of a `do` aren't the roles in their order. Then what is named is the protocol that
    /// the `do` names.
    RolesDiffer,
    /// A statement stands behind a choice or a `rec` that holds a `do`, in the same list. The place
    /// is the `do`.
    NotLast,
    /// There are two or more protocols, and the first has no message and no choice, or has a `do`
    /// before them all. The place is the first protocol's name, or the `do`.
    StartsWithDo,
}

impl Condition {
    ghost use Rattle.std.specs.Prelude.{◌≡◌};
    ghost use Rattle.scr_tree.specs.Faults.{condition_word};

    /// The word for it in a refusal.
    pub fn word(self) -> &'static str
        ensures { result.now ≡ condition_word self }
    {
        match self {
            Condition::DuplicateName => "DuplicateName",
            Condition::UnknownRole => "UnknownRole",
            Condition::PeerIsSelf => "PeerIsSelf",
            Condition::UnknownType => "UnknownType",
            Condition::PayloadCount => "PayloadCount",
            Condition::UnknownRec => "UnknownRec",
            Condition::DuplicateRec => "DuplicateRec",
            Condition::Unguarded => "Unguarded",
            Condition::Unreachable => "Unreachable",
            Condition::BranchStart => "BranchStart",
            Condition::MixedChoice => "MixedChoice",
            Condition::SameLabel => "SameLabel",
            Condition::ReservedLabel => "ReservedLabel",
            Condition::NameClash => "NameClash",
            Condition::TooManyStates => "TooManyStates",
            Condition::UnknownProtocol => "UnknownProtocol",
            Condition::DuplicateProtocol => "DuplicateProtocol",
            Condition::RolesDiffer => "RolesDiffer",
            Condition::NotLast => "NotLast",
            Condition::StartsWithDo => "StartsWithDo",
        }
    }
}
