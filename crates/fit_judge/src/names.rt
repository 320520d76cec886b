//! Names of roles and of classes: sets of them, and numbers by them.

ghost use Rattle.std.specs.Prelude.{◌≡◌, ◌↔◌, ℕ, List as Seq, Contains, IfOk, IsTrue, map, string_bytes};
ghost use Rattle.std.specs.HashMap.{get_by_text};
ghost use Rattle.std.specs.HashSet.{contains_text};
ghost use Rattle.stm_acts.specs.Played.{role_class};
ghost use Rattle.jv_core.specs.Lookup.{class_numbered};
ghost use Rattle.mg_sources.specs.Parts.{part_of};
ghost use Rattle.mg_fits.specs.Parts.{roles_in};
ghost use Rattle.fit_judge.specs.inner.Absent.{IsProtocolIn};

use jv_core::{Core, name_text};
use mg_sources::Part;
use mg_text::{Memory, Text};
use scr_judge::{add_name, no_names};
use scr_tree::Local;
use std::alloc::Global;
use std::collections::{HashMap, HashSet};
use vm_world_law::RoleMain;

/// The protocol that a part is, if it is one.
pub(crate) fn protocol_in(part: &Part) -> Option<&Local>
    ensures { IsProtocolIn (part_of part.now) result }
{
    match part {
        Part::Protocol(local) => Some(local),
        Part::States(_) | Part::Classes(_) => None,
    }
}

/// The name of the class that is generated of the protocol of a role.
pub(crate) fn role_class(alloc: Global, role: &str) -> Result<String, Memory>
    ensures { IfOk result (λ s. string_bytes s ≡ role_class role.now) }
{
    let mut name = String::from_str(alloc, role)?;
    name.push_str("Role")?;
    Ok(name)
}

/// The roles that are played.
pub(crate) fn roles_played(alloc: Global, mains: &[RoleMain]) -> Result<HashSet<String>, Memory>
    ensures { IfOk result (λ s. (q : Seq ℕ) → IsTrue (contains_text s q) ↔ Contains (map (λ m. m.role) mains.now) q) }
{
    let mut names = no_names(alloc);
    for main in mains {
        let name = String::from_str(alloc, main.role.as_str())?;
        add_name(&mut names, name)?;
    }
    Ok(names)
}

/// The roles that are listed.
pub(crate) fn roles_listed(alloc: Global, roles: &[Text]) -> Result<HashSet<String>, Memory>
    ensures { IfOk result (λ s. (q : Seq ℕ) → IsTrue (contains_text s q) ↔ Contains roles.now q) }
{
    let mut names = no_names(alloc);
    for role in roles {
        let name = String::from_str(alloc, role.as_str())?;
        add_name(&mut names, name)?;
    }
    Ok(names)
}

/// The roles that the protocols of files are of.
pub(crate) fn roles_spelled(alloc: Global, parts: &[Part]) -> Result<HashSet<String>, Memory>
    ensures { IfOk result (λ s. (q : Seq ℕ) → IsTrue (contains_text s q) ↔ Contains (roles_in (map part_of parts.now)) q) }
{
    let mut names = no_names(alloc);
    for part in parts {
        let local = match protocol_in(part) {
            Some(local) => local,
            None => continue,
        };
        let name = String::from_str(alloc, local.me().as_str())?;
        add_name(&mut names, name)?;
    }
    Ok(names)
}

/// The names of the classes that are generated of the protocols of files.
pub(crate) fn classes_spelled(alloc: Global, parts: &[Part]) -> Result<HashSet<String>, Memory>
    ensures { IfOk result (λ s. (q : Seq ℕ) →
        IsTrue (contains_text s q) ↔ Contains (map role_class (roles_in (map part_of parts.now))) q) }
{
    let mut names = no_names(alloc);
    for part in parts {
        let local = match protocol_in(part) {
            Some(local) => local,
            None => continue,
        };
        let name = role_class(alloc, local.me().as_str())?;
        add_name(&mut names, name)?;
    }
    Ok(names)
}

/// The number of the first class of each name.
pub(crate) fn class_numbers(alloc: Global, core: &Core) -> Result<HashMap<String, u32>, Memory>
    ensures { IfOk result (λ m. (q : Seq ℕ) → get_by_text m q ≡ class_numbered core.now q) }
{
    let mut numbers = HashMap::new(alloc);
    let classes = core.classes();
    for (number, class) in classes.iter().enumerate() {
        let name = name_text(core, class.name);
        if numbers.contains_key(name) {
            continue;
        }
        let Ok(number) = u32::try_from(number) else {
            return Err(Memory);
        };
        let key = String::from_str(alloc, name)?;
        numbers.insert(key, number)?;
    }
    Ok(numbers)
}
