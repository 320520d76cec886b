//! What kinds by numbers say.

ghost use Rattle.cls_kinds.specs.Laws.{JoinsAgree, FitsAgree};

/// Kinds by numbers are joined, and fit each other, as the kinds do for which they stand, whatever
/// the names of the classes are.
pub fn numbers_say_kinds()
    ensures joins { JoinsAgree }
    ensures fits { FitsAgree }
{}
