//! Laws on resolved programs: what their conditions promise of their meaning.
//! There is no running code here; each function carries a law.
#![tactic(auto)]

ghost use Rattle.jv_sound.specs.Counter.{CounterRuns};
ghost use Rattle.jv_sound.specs.Laws.{BudgetLaw, NeverWrong};

/// For each class with `main`, whatever the other roles sent and whatever the budget, no meaning
/// of a resolved program ends with Wrong: each step has a case.
pub fn never_wrong()
    ensures { NeverWrong }
{}

/// A greater budget changes nothing of a run of a resolved program that has ended, and only adds events to one that has not.
pub fn budget_law()
    ensures { BudgetLaw }
{}

/// The meaning of an example core is computed: its events and its ending are those that are
/// written there. Its calls are seen by its own tables.
pub fn example_is_computed()
    ensures { CounterRuns }
{}
