//! What is promised of accepted files: that they keep to their typestates, and what the objects of generated classes do in
//! their runs.
//! There is no running code here; each function carries a law.
#![tactic(auto)]

ghost use Rattle.mg_accepted_law.specs.KeptLaws.{AcceptedKeepTypestates};
ghost use Rattle.mg_accepted_law.specs.Laws.{AcceptedObjectsPlay};

use jv_names::mains_are_the_same;
use jv_resolve_law::spelled_is_shaped;
use stm_acts::{acts_are_steps, held_is_had};
use use_meant_law::sources_keep_typestates;

/// For each class with `main` of accepted files, whatever the other roles sent and whatever the budget: no null is
/// dereferenced and each step has a case; at each moment the calls of each object follow its class's typestate, also with
/// one that is open; and where `main` returns each object is at the end of its typestate or in a state that is
/// marked `drop: end`.
pub fn accepted_keep_typestates()
    ensures { AcceptedKeepTypestates }
{
    spelled_is_shaped();
    mains_are_the_same();
    sources_keep_typestates();
}

/// For each protocol among accepted files, and each class of them with `main`, whatever the other
/// roles sent and whatever the budget: at each moment the acts of each object of the protocol's
/// class are steps of the protocol from its start, in order, one for each call; a call that is
/// still open has at most one act. Or the open call looked at a label of no branch: that is the
/// last that is seen, and `main` ends as a mismatch.
pub fn accepted_objects_play()
    ensures { AcceptedObjectsPlay }
{
    acts_are_steps();
    held_is_had();
    accepted_keep_typestates();
}
