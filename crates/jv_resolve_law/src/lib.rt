//! How programs are resolved, on trees: names give way to numbers; and what the grammar of Java files fixes of their trees.
//! There is no running code here; each function carries a law.
#![tactic(auto)]

ghost use Rattle.jv_resolve_law.specs.Laws.{ResolvingIsRight, ResolvingIsTotal};
ghost use Rattle.jv_resolve_law.specs.ShapedLaws.{SpelledIsShaped};

/// What a well typed program is resolved to stands for it, where it is within the bounds.
pub fn resolving_is_right()
    ensures { ResolvingIsRight }
{}

/// A well typed program that assigns to variables alone is resolved.
pub fn resolving_is_total()
    ensures { ResolvingIsTotal }
{}

/// A program whose files are spelled by tokens is shaped as the grammar has it, and assigns to variables alone.
pub fn spelled_is_shaped()
    ensures { SpelledIsShaped }
{}
