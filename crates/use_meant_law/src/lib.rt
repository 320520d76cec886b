//! What is promised of sources whose core some tables solve.
//! There is no running code here; the function carries a law.
#![tactic(auto)]

ghost use Rattle.use_meant_law.specs.Laws.{SourcesKeepTypestates};

use jv_names::{core_is_kept, follows_the_same, mains_are_the_same, sources_are_sound};
use use_kept::keeps_typestates;

/// Where tables solve the core of well typed sources, for each class with `main`, whatever the other roles sent and whatever
/// the budget: no null is dereferenced and each step has a case; at each moment the calls of each object follow its class's
/// typestate, also with one that is open; and where `main` returns each object is at the end of its typestate or
/// in a state that is marked `drop: end`.
pub fn sources_keep_typestates()
    ensures { SourcesKeepTypestates }
{
    core_is_kept();
    sources_are_sound();
    mains_are_the_same();
    follows_the_same();
    keeps_typestates();
}
