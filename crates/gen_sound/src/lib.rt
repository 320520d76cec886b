//! The machine on the linked program of a core does what the core means; and the code of a core is typable, so no run
//! of it is bad.
//! There is no running code here; each function carries a law.
#![tactic(auto)]

ghost use Rattle.gen_sound.specs.Laws.{CoresNeverBad, CoresTypable};
ghost use Rattle.gen_sound.specs.Mains.{LinkedCodeRuns, MainsAgree};

/// In the linked program of a core each frame of a method runs the code that the templates give for
/// it: at each place stands what is linked of the instruction there, and the frame is as large as they say.
pub fn linked_code_runs()
    ensures { LinkedCodeRuns }
{}

/// The machine that starts at a `main` runs its code as it means: with the same events, and to the
/// same ending, the same wait for a message, or, where the meaning's budget is spent, on for at least
/// as many steps. So the run shows nothing else: where it ends or waits the meaning does, and what it
/// shows on the way the meaning shows.
pub fn mains_run_as_meant()
    ensures { MainsAgree }
{}

/// Each method of the linked program of a core whose names are plain is typable, and none of its runs is bad.
pub fn code_is_typable()
    ensures typable { CoresTypable }
    ensures never_bad { CoresNeverBad }
{}
