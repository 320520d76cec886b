//! The roles of the header, those that are played, and those whose protocols the files have.

ghost use Rattle.std.specs.Prelude.{◌≡◌, List as Seq, IfOk, length, map};
ghost use Rattle.std.specs.HashSet.{contains_text};
ghost use Rattle.mg_read.specs.First.{Judged};
ghost use Rattle.scr_global_tree.specs.Tree.{GlobalTree};
ghost use Rattle.scr_global_tree.specs.Global.{tree_of};
ghost use Rattle.jv_core.specs.Tree.{Program};
ghost use Rattle.vm_world_law.specs.declared.role.RoleMain.{RoleMain as Main};
ghost use Rattle.mg_sources.specs.Reading.{Part as Spelled};
ghost use Rattle.mg_sources.specs.Parts.{part_of};
ghost use Rattle.mg_fits.specs.Parts.{header};
ghost use Rattle.mg_fits.specs.Conditions.{Of};
ghost use Rattle.mg_fits.specs.Conditions as fits;
ghost use Rattle.fit_judge.specs.inner.Absent.{IsAbsent};

use crate::names::{roles_listed, roles_played, roles_spelled};
use mg_refusal::Refusal;
use mg_sources::Part;
use mg_text::Memory;
use scr_global_tree::Global as GlobalProtocol;
use scr_judge::{add_name, no_names};
use std::alloc::Global;
use std::collections::HashSet;
use vm_world_law::RoleMain;

// The first role of the header that isn't among these.
fn absent(
    kind: &'static str,
    global: &GlobalProtocol,
    there: &HashSet<String>,
) -> Result<Option<Refusal>, Memory>
    requires { length (tree_of global.now).places ≡ length (tree_of global.now).roles }
    ensures { IfOk result (Judged (IsAbsent kind.now (contains_text there.now))
        (header (tree_of global.now).roles (tree_of global.now).places)) }
{
    let places = global.places().as_slice();
    let roles = global.roles().as_slice();
    for (number, role) in roles.iter().enumerate() {
        if !there.contains(role.as_str()) {
            return Ok(Some(Refusal::named(kind, places[number], role.copy()?)));
        }
    }
    Ok(None)
}

/// The first role of the header that nobody plays.
pub(crate) fn unplayed(
    alloc: Global,
    global: &GlobalProtocol,
    mains: &[RoleMain],
) -> Result<Option<Refusal>, Memory>
    requires { length (tree_of global.now).places ≡ length (tree_of global.now).roles }
    ensures { (ps : Seq Spelled) (p : Program) → IfOk result (Of (tree_of global.now) ps p mains.now fits.Unplayed) }
{
    let played = roles_played(alloc, mains)?;
    absent("Unplayed", global, &played)
}

/// The first that is played and doesn't stand in the header.
pub(crate) fn stranger(
    alloc: Global,
    global: &GlobalProtocol,
    mains: &[RoleMain],
) -> Result<Option<Refusal>, Memory>
    ensures { (ps : Seq Spelled) (p : Program) → IfOk result (Of (tree_of global.now) ps p mains.now fits.Stranger) }
{
    let listed = roles_listed(alloc, global.roles().as_slice())?;
    for main in mains {
        if !listed.contains(main.role.as_str()) {
            return Ok(Some(Refusal::nowhere("Stranger", main.role.copy()?)));
        }
    }
    Ok(None)
}

/// The first class that an earlier role has too.
pub(crate) fn shared_main(alloc: Global, mains: &[RoleMain]) -> Result<Option<Refusal>, Memory>
    ensures { (g : GlobalTree) (ps : Seq Spelled) (p : Program) → IfOk result (Of g ps p mains.now fits.SharedMain) }
{
    let mut classes = no_names(alloc);
    for main in mains {
        let class = String::from_str(alloc, main.class.as_str())?;
        if !add_name(&mut classes, class)? {
            return Ok(Some(Refusal::nowhere("SharedMain", main.class.copy()?)));
        }
    }
    Ok(None)
}

/// The first role of the header of which no file has the protocol.
pub(crate) fn no_protocol(
    alloc: Global,
    global: &GlobalProtocol,
    parts: &[Part],
) -> Result<Option<Refusal>, Memory>
    requires { length (tree_of global.now).places ≡ length (tree_of global.now).roles }
    ensures { (p : Program) (ms : Seq Main) → IfOk result (Of (tree_of global.now) (map part_of parts.now) p ms fits.NoProtocol) }
{
    let spelled = roles_spelled(alloc, parts)?;
    absent("NoProtocol", global, &spelled)
}
