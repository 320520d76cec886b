//! The type rules of Java sources: which condition is at fault in a program, where, and with which name.
//! Definitions and their laws; no code of a program stands here.
#![tactic(auto)]

mod condition;

ghost use Rattle.jv_rules.specs.Program.{Program};
ghost use Rattle.jv_rules.specs.Faults.{IsFault};
ghost use Rattle.jv_rules.specs.Examples.{AreJudged};
ghost use Rattle.jv_rules.specs.Laws.{OneFault};
ghost use Rattle.jv_rules.specs.inner.Deciding.{method_fault};

pub use condition::Condition;

/// The fault of a program's methods, or that there is none, can be computed.
#[tactic(auto, using(crate::proofs::Deciding::judging))]
pub fn methods_are_judged()
    ensures { (program : Program) → IsFault program (method_fault program) }
{}

/// A program has one fault of its types, or none. The function carries a law.
pub fn one_fault()
    ensures { OneFault }
{}

/// Small programs are judged as they should be.
#[tactic(auto, using(crate::proofs::Judged::are_judged))]
pub fn examples()
    ensures { AreJudged }
{}
