//! What the events of a run tell of the objects of each role.

ghost use Rattle.std.specs.Prelude.{◌≡◌, ◌<◌, ℕ, OnOk, length};
ghost use Rattle.mg_trace.specs.inner.Kept.{objects_at};

use crate::objects::Tracked;
use mg_text::Memory;
use std::alloc::Global;

/// Makes room for the objects of a role. No role has more.
pub(crate) fn make_room(
    alloc: Global,
    roles: &mut Vec<Vec<Tracked>>,
    role: u32,
) -> Result<(), Memory>
    ensures within { OnOk result (role < length roles.new.items) }
    ensures same { OnOk result ((r : ℕ) → objects_at roles.new.items r ≡ objects_at roles.old.items r) }
{
    for _ in roles.len()..role as usize + 1 {
        roles.push(Vec::new(alloc))?;
    }
    Ok(())
}

/// The objects of a role.
pub(crate) fn objects_of<'a, 'b>(roles: &'b [Vec<Tracked<'a>>], role: u32) -> &'b [Tracked<'a>]
    requires { role < length roles.now }
    ensures { result.now ≡ objects_at roles.now role }
{
    roles[role as usize].as_slice()
}
