//! The protocols of files, beside the projections of the global one.

ghost use Rattle.std.specs.Prelude.{◌≡◌, ◌↔◌, [], List as Seq, IfOk, IsTrue, map};
ghost use Rattle.scr_tree.specs.Local.{tree_of as local_of};
ghost use Rattle.scr_back.specs.Same.{AreSame};
ghost use Rattle.scr_global_tree.specs.Global.{tree_of};
ghost use Rattle.scr_global_tree.specs.Valid.{IsValid};
ghost use Rattle.jv_core.specs.Tree.{Program};
ghost use Rattle.vm_world_law.specs.declared.role.RoleMain.{RoleMain as Main};
ghost use Rattle.mg_sources.specs.Parts.{part_of};
ghost use Rattle.mg_fits.specs.Conditions.{Of};
ghost use Rattle.mg_fits.specs.Conditions as fits;
ghost use Rattle.mg_fits.specs.Parts.{roles_in};
ghost use Rattle.scr_tree.specs.Valid.{AreDistinct};
ghost use Rattle.fit_judge.specs.Verdict.{AreProjections};
ghost use Rattle.fit_judge.specs.inner.Projections.{NumbersParts, IsOwn};

use crate::names::protocol_in;
use mg_refusal::Refusal;
use mg_sources::Part;
use mg_text::{Memory, Place};
use scr_global_tree::Global as GlobalProtocol;
use scr_same::are_same;
use scr_tree::Local;
use std::alloc::Global;
use std::collections::HashMap;

// Where among the parts the protocol of each role stands.
fn places_of_protocols(alloc: Global, parts: &[Part]) -> Result<HashMap<String, usize>, Memory>
    requires { AreDistinct (roles_in (map part_of parts.now)) }
    ensures { IfOk result (NumbersParts (map part_of parts.now)) }
{
    let mut places = HashMap::new(alloc);
    for (place, part) in parts.iter().enumerate() {
        let local = match protocol_in(part) {
            Some(local) => local,
            None => continue,
        };
        let name = String::from_str(alloc, local.me().as_str())?;
        places.insert(name, place)?;
    }
    Ok(places)
}

// The protocol of a role, if there is one.
fn own_protocol<'a>(
    parts: &'a [Part],
    places: &HashMap<String, usize>,
    role: &str,
) -> Option<&'a Local>
    requires { NumbersParts (map part_of parts.now) places.now }
    ensures { IsOwn (map part_of parts.now) role.now result }
{
    match places.get(role) {
        Some(place) => protocol_in(&parts[*place]),
        None => None,
    }
}

// Whether a protocol does what its projection does, and its file holds no other.
fn is_projection(projection: &Local, local: &Local) -> bool
    ensures { IsTrue result ↔ (AreSame (local_of projection.now).body (local_of local.now).body × ((local_of local.now).others ≡ [])) }
{
    local.others().as_slice().is_empty()
        && are_same(projection.body().as_slice(), local.body().as_slice())
}

/// The first role of the header whose protocol in the files isn't its projection. The projections
/// are those of all roles, in the order of the header.
pub(crate) fn other_protocol(
    alloc: Global,
    global: &GlobalProtocol,
    projections: &[Local],
    parts: &[Part],
) -> Result<Option<Refusal>, Memory>
    requires valid { IsValid (tree_of global.now) }
    requires projections { AreProjections (tree_of global.now) (map local_of projections.now) }
    requires differ { AreDistinct (roles_in (map part_of parts.now)) }
    ensures { (p : Program) (ms : Seq Main) →
        IfOk result (Of (tree_of global.now) (map part_of parts.now) p ms fits.OtherProtocol) }
{
    let places = places_of_protocols(alloc, parts)?;
    let roles = global.roles().as_slice();
    for (number, role) in roles.iter().enumerate() {
        let local = match own_protocol(parts, &places, role.as_str()) {
            Some(local) => local,
            None => continue,
        };
        if !is_projection(&projections[number], local) {
            let start = Place::start(local.file());
            return Ok(Some(Refusal::named("OtherProtocol", start, role.copy()?)));
        }
    }
    Ok(None)
}
