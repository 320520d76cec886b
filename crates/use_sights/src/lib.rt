//! What a variable may be where a protocol method is called on it, and where the call leads.
//! There is no running code here but the type of a call; the function carries a law.
#![tactic(auto)]

ghost use Rattle.use_sights.specs.Laws.{SightsTell, BeforeGrows};

mod site;

pub use site::Site;

/// What a variable has where a method is called on it, over all contexts, tells which demands on the call fail: that
/// it is null, that it was moved, or that it is finished or in a state that doesn't offer the method. With larger tables
/// it may be more.
pub fn sights_tell()
    ensures tells { SightsTell }
    ensures grows { BeforeGrows }
{}
