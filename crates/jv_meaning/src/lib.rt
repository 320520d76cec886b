//! The meaning of Java sources: what a program does, and which calls of its objects its typestates allow.
//! There is no running code here; each function carries a law.
#![tactic(auto)]

ghost use Rattle.jv_meaning.specs.Budget.{BudgetLaw};
ghost use Rattle.jv_meaning.specs.Computed.{Computed};

/// A greater budget changes nothing of a run that has ended, and only adds events to one that has not.
pub fn budget_law()
    ensures { BudgetLaw }
{}

/// The meanings of the example programs are computed: their events and their endings are those that are written there.
pub fn examples_are_computed()
    ensures { Computed }
{}
