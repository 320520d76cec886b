//! Which resolved program stands for which sources; that both mean the same; what is kept of the conditions of the
//! sources; and what its conditions promise of them.
//! There is no running code here; each function carries a law.
#![tactic(auto)]

ghost use Rattle.jv_names.specs.KeptLaws.{CompletesAlike, CoreIsKept};
ghost use Rattle.jv_names.specs.Laws.{FollowsTheSame, MainsAreTheSame, MeansTheSame};
ghost use Rattle.jv_names.specs.WholeLaws.{SourcesAreSound, TypesAreEnough};

/// A resolved program that stands for sources means the same as they do, for each class, all messages of the other roles and
/// every budget, where its own meaning isn't Wrong. A class without `main` means the same always: nothing is run.
pub fn means_the_same()
    ensures { MeansTheSame }
{}

/// A class has `main` in sources exactly where it has it in a resolved program that stands for them.
pub fn mains_are_the_same()
    ensures { MainsAreTheSame }
{}

/// Events that follow the typestates of a resolved program follow those of the sources that it stands for, and where all of its
/// objects are finished so are those of the sources.
pub fn follows_the_same()
    ensures { FollowsTheSame }
{}

/// Where the statements of a resolved method can complete, those of its source can.
pub fn completes_alike()
    ensures { CompletesAlike }
{}

/// The core that stands for a well typed program, whose trees are as the grammar has them, meets the conditions of cores:
/// its numbers are in range, it is well typed, and it is numbered in the order of its text.
pub fn core_is_kept()
    ensures { CoreIsKept }
{}

/// Sources for which a resolved program stands that meets its conditions mean the same as it does, for each class, all messages
/// of the other roles and every budget. Where the class has `main`, no meaning ends with `Wrong`: each step has a case.
pub fn sources_are_sound()
    ensures { SourcesAreSound }
{}

/// The same for well typed sources, whose trees are as the grammar has them: the program that is resolved of them meets its conditions.
pub fn types_are_enough()
    ensures { TypesAreEnough }
{}
