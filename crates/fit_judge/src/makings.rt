//! The first role whose `main` makes no object of its class.

ghost use Rattle.std.specs.Prelude.{◌≡◌, List as Seq, IfOk, map};
ghost use Rattle.std.specs.HashMap.{get_by_text};
ghost use Rattle.scr_tree.specs.Valid.{AreDistinct};
ghost use Rattle.jv_core.specs.View.{method_of};
ghost use Rattle.scr_global_tree.specs.Tree.{GlobalTree};
ghost use Rattle.vm_world_law.specs.declared.role.RoleMain.{RoleMain as Main};
ghost use Rattle.mg_sources.specs.Reading.{Part as Spelled};
ghost use Rattle.mg_fits.specs.Conditions.{Of};
ghost use Rattle.mg_fits.specs.Conditions as fits;
ghost use Rattle.fit_judge.specs.inner.Making.{MakesBy};
ghost use Rattle.fit_judge.specs.inner.Used.{makes_none, ArePlaces};

use crate::code::{class_name, is_main};
use fit_uses::has_making;
use jv_core::{Core, CoreMethod};
use mg_refusal::Refusal;
use mg_text::{Memory, Place};
use std::alloc::Global;
use std::collections::HashMap;
use vm_world_law::RoleMain;

// Whether a `main` makes no object of the class of its role.
fn makes_none(makes: &HashMap<String, u32>, class: &str, method: &CoreMethod) -> bool
    ensures { result ≡ makes_none (get_by_text makes.now class.now) (method_of method.now) }
{
    match makes.get(class) {
        Some(made) => !has_making(*made, method.body.as_slice()),
        None => true,
    }
}

// The places of the `main`s that make no object of the class of their role, by the names of their
// classes.
fn without_making(
    alloc: Global,
    core: &Core,
    makes: &HashMap<String, u32>,
) -> Result<HashMap<String, Place>, Memory>
    ensures { (mains : Seq Main) → MakesBy core.now mains makes.now → IfOk result (ArePlaces core.now mains) }
{
    let mut places = HashMap::new(alloc);
    for method in core.methods() {
        if !is_main(method) {
            continue;
        }
        let Some(class) = class_name(core, method.class) else {
            continue;
        };
        if !makes_none(makes, class, method) {
            continue;
        }
        let name = String::from_str(alloc, class)?;
        places.insert(name, method.place)?;
    }
    Ok(places)
}

/// The first role whose `main` makes no object of its class, in the order of the roles. No two of
/// them have one class.
pub(crate) fn not_made(
    alloc: Global,
    core: &Core,
    makes: &HashMap<String, u32>,
    mains: &[RoleMain],
) -> Result<Option<Refusal>, Memory>
    requires makes { MakesBy core.now mains.now makes.now }
    requires differ { AreDistinct (map (λ m. m.class) mains.now) }
    ensures { (g : GlobalTree) (ps : Seq Spelled) → IfOk result (Of g ps core.now mains.now fits.NotMade) }
{
    let places = without_making(alloc, core, makes)?;
    for main in mains {
        if let Some(place) = places.get(main.class.as_str()) {
            return Ok(Some(Refusal::named("NotMade", *place, main.role.copy()?)));
        }
    }
    Ok(None)
}
