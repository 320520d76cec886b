//! In a world of a program whose methods are all typable no role ends badly.
//! There is no running code here; the function carries a law.
#![tactic(auto)]

ghost use Rattle.world_typed_law.specs.Worlds.{TypableWorldsNeverBad};

/// In a world of a program whose methods are all typable no role ends badly, whatever turns are
/// taken.
pub fn typable_worlds_never_bad()
    ensures { TypableWorldsNeverBad }
{}
