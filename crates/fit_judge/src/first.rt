//! The first condition that is at fault.

ghost use Rattle.std.specs.Prelude.{[], ◌∷◌, List as Seq, IfOk, map};
ghost use Rattle.scr_tree.specs.Valid.{AreDistinct};
ghost use Rattle.scr_tree.specs.Local.{tree_of as local_of};
ghost use Rattle.scr_global_tree.specs.Tree.{GlobalTree};
ghost use Rattle.scr_global_tree.specs.Global.{tree_of};
ghost use Rattle.scr_global_tree.specs.Valid.{IsValid};
ghost use Rattle.jv_core.specs.Tree.{Program};
ghost use Rattle.mg_sources.specs.Parts.{part_of};
ghost use Rattle.vm_world_law.specs.declared.role.RoleMain.{RoleMain as Main};
ghost use Rattle.mg_sources.specs.Reading.{Part as Spelled};
ghost use Rattle.mg_fits.specs.Parts.{roles_in};
ghost use Rattle.mg_fits.specs.Conditions as fits;
ghost use Rattle.fit_judge.specs.Verdict.{AreProjections, IsFirstOf, IsVerdict};

use crate::code::{makings, own_uses};
use crate::makings::not_made;
use crate::names::classes_spelled;
use crate::projections::other_protocol;
use crate::roles::{no_protocol, shared_main, stranger, unplayed};
use crate::used::{made_elsewhere, own_session};
use jv_core::Core;
use mg_refusal::Refusal;
use mg_sources::Part;
use mg_text::Memory;
use scr_global_tree::Global as GlobalProtocol;
use scr_tree::Local;
use std::alloc::Global;
use vm_world_law::RoleMain;

// The first refusal by the roles that are played.
fn unfit_roles(
    alloc: Global,
    global: &GlobalProtocol,
    mains: &[RoleMain],
) -> Result<Option<Refusal>, Memory>
    requires { IsValid (tree_of global.now) }
    ensures { (ps : Seq Spelled) (p : Program) →
        IfOk result (IsFirstOf (tree_of global.now) ps p mains.now (fits.Unplayed ∷ fits.Stranger ∷ fits.SharedMain ∷ [])) }
{
    if let Some(refusal) = unplayed(alloc, global, mains)? {
        return Ok(Some(refusal));
    }
    match stranger(alloc, global, mains)? {
        Some(found) => Ok(Some(found)),
        None => shared_main(alloc, mains),
    }
}

// The first refusal by the protocols of the files.
fn unfit_protocols(
    alloc: Global,
    global: &GlobalProtocol,
    projections: &[Local],
    parts: &[Part],
) -> Result<Option<Refusal>, Memory>
    requires valid { IsValid (tree_of global.now) }
    requires projections { AreProjections (tree_of global.now) (map local_of projections.now) }
    requires differ { AreDistinct (roles_in (map part_of parts.now)) }
    ensures { (p : Program) (ms : Seq Main) →
        IfOk result (IsFirstOf (tree_of global.now) (map part_of parts.now) p ms (fits.NoProtocol ∷ fits.OtherProtocol ∷ [])) }
{
    match no_protocol(alloc, global, parts)? {
        Some(refusal) => Ok(Some(refusal)),
        None => other_protocol(alloc, global, projections, parts),
    }
}

// The first refusal by the code of the files. No two of the roles have one class.
fn unfit_code(
    alloc: Global,
    parts: &[Part],
    core: &Core,
    mains: &[RoleMain],
) -> Result<Option<Refusal>, Memory>
    requires { AreDistinct (map (λ m. m.class) mains.now) }
    ensures { (g : GlobalTree) →
        IfOk result (IsFirstOf g (map part_of parts.now) core.now mains.now (fits.OwnSession ∷ fits.MadeElsewhere ∷ fits.NotMade ∷ [])) }
{
    let classes = classes_spelled(alloc, parts)?;
    let makes = makings(alloc, core, mains)?;
    let own = own_uses(alloc, core, &classes, &makes)?;
    let uses = own.as_slice();
    if let Some(refusal) = own_session(alloc, uses)? {
        return Ok(Some(refusal));
    }
    match made_elsewhere(alloc, core, &classes, uses)? {
        Some(found) => Ok(Some(found)),
        None => not_made(alloc, core, &makes, mains),
    }
}

/// The first refusal of roles and files by the conditions of fitting, in their order, or none where
/// they fit. The projections are those of all roles of the header, in its order, and no two of the
/// parts are protocols of one role. The only error is want of memory.
pub fn first_unfit(
    alloc: Global,
    global: &GlobalProtocol,
    projections: &[Local],
    parts: &[Part],
    core: &Core,
    mains: &[RoleMain],
) -> Result<Option<Refusal>, Memory>
    requires valid { IsValid (tree_of global.now) }
    requires projections { AreProjections (tree_of global.now) (map local_of projections.now) }
    requires differ { AreDistinct (roles_in (map part_of parts.now)) }
    ensures { IfOk result (IsVerdict (tree_of global.now) (map part_of parts.now) core.now mains.now) }
{
    if let Some(refusal) = unfit_roles(alloc, global, mains)? {
        return Ok(Some(refusal));
    }
    match unfit_protocols(alloc, global, projections, parts)? {
        Some(found) => Ok(Some(found)),
        None => unfit_code(alloc, parts, core, mains),
    }
}
