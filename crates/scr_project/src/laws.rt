//! What projection promises of roles that do what was answered for them. There is no running code
//! here; each function carries a law.

ghost use Rattle.scr_project.specs.Laws.{CompleteRunsAreFollowed, MessagesAreTaken, NoneIsStuck, RunsAreFollowed};

/// Roles that do what `project` answered for them never get stuck: where next acts of a role take
/// from or look at a list that isn't empty, one of them is a step; and where no role can do a step,
/// every role is complete and every list is empty.
pub fn none_is_stuck()
    ensures taken { MessagesAreTaken }
    ensures complete { NoneIsStuck }
{}

/// The messages of a run of the global protocol that name a role are, but for looks, a run of what
/// `project` answered for the role, and a complete one where the run is complete.
pub fn runs_are_followed()
    ensures runs { RunsAreFollowed }
    ensures complete { CompleteRunsAreFollowed }
{}
