//! What the files of a projected global protocol promise. There is no running code here; each
//! function carries a law.

ghost use Rattle.mg_projected.specs.Laws.{FilesAreProjected, MessagesAreTaken, NoneIsStuck, RunsAreFollowed, CompleteRunsAreFollowed};

/// The files that `projected` answers have the texts of the projections of a valid global protocol,
/// which the bytes spell. So roles that do what their files say never get stuck: where next acts of
/// a role take from or look at a list that isn't empty, one of them is a step; and where no role can
/// do a step, every role is complete and every list is empty.
pub fn files_are_followed()
    ensures projected { FilesAreProjected }
    ensures taken { MessagesAreTaken }
    ensures complete { NoneIsStuck }
{}

/// The messages of a run of the global protocol that name a role are, but for looks, a run of what
/// the role's file says, and a complete one where the run is complete.
pub fn runs_are_followed()
    ensures runs { RunsAreFollowed }
    ensures complete { CompleteRunsAreFollowed }
{}
