//! The law of refusals of roles that don't fit. There is no running code here; the function carries it.

ghost use Rattle.mg_fitted.specs.Laws.{RefusalsAreAlike};

use jv_names::core_is_kept;
use jv_resolve_law::spelled_is_shaped;

/// Two first refusals of the same global protocol, files and roles are one, but for the place of
/// Syntax.
pub fn refusals_are_alike()
    ensures { RefusalsAreAlike }
{
    spelled_is_shaped();
    core_is_kept();
}
