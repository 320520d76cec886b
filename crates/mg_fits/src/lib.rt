//! Roles that fit a global protocol: which files fit it, run by which roles, and that these never get
//! stuck on one another.
//! There is no running code here; the function carries a law.
#![tactic(auto)]

ghost use Rattle.mg_fits.specs.Laws.{RolesThatFit};

use jv_resolve_law::spelled_is_shaped;
use mg_accepted_law::accepted_keep_typestates;

/// Where files fit a global protocol and each role begins at the `main` of its class: after every list of
/// turns no role has ended but by its return or a zero divisor. Where the world rests, and no role ended by a
/// zero divisor, every role has returned, every list of messages is empty, each role has acted by one object
/// and has done a complete run of its protocol, and what was said is a complete conversation of the global
/// protocol. At each moment what the roles have done, with the messages on their way, is a configuration that
/// steps of their protocols reach from the start; and where each conversation can be brought to an end, what
/// was said is part of a complete one, and each role can do the rest.
pub fn roles_that_fit()
    ensures { RolesThatFit }
{
    spelled_is_shaped();
    accepted_keep_typestates();
}
