//! Objects of classes with a typestate, followed through code: a program, the machine that runs it, what is known at each
//! place of it, which abstract frames are reached, and what is demanded there.
//! These are definitions; there is no running code here, and the function carries a law.
#![tactic(auto)]

ghost use Rattle.insp_rules.specs.Numbers.{CanonicalNumbers};

/// Numbering groups by the first place that has them is a way to number them.
pub fn groups_are_numbered()
    ensures { CanonicalNumbers }
{}
