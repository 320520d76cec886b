//! The uses of all code of the sources, but for the makings of the roles.

ghost use Rattle.std.specs.Prelude.{◌≡◌, ◌++◌, List as Seq, IfOk, OnOk, option_map, string_bytes};
ghost use Rattle.std.specs.HashMap.{get_by_text};
ghost use Rattle.std.specs.Map.{update};
ghost use Rattle.std.specs.Str.{bytes_eq};
ghost use Rattle.mg_text.specs.Call.{Name};
ghost use Rattle.vm_world_law.specs.declared.role.RoleMain.{RoleMain as Main};
ghost use Rattle.jv_core.specs.Lookup.{class_text, is_main};
ghost use Rattle.jv_core.specs.View.{method_of};
ghost use Rattle.mg_fits.specs.Parts.{has_role_class, uses_of_method, class_to_make, own_uses};
ghost use Rattle.fit_judge.specs.inner.Making.{MakesBy, HoldsClasses};

use crate::names::{class_numbers, role_class};
use fit_uses::{Use, add_uses_beside_making, uses_in_all};
use jv_core::{Core, CoreMethod, MethodKind, name_text};
use mg_text::{List, Memory};
use std::alloc::Global;
use std::collections::{HashMap, HashSet};
use vm_world_law::RoleMain;

/// By the name of the class of a `main`, the number of the class of whose objects it may make one.
pub(crate) fn makings(
    alloc: Global,
    core: &Core,
    mains: &[RoleMain],
) -> Result<HashMap<String, u32>, Memory>
    ensures { IfOk result (MakesBy core.now mains.now) }
{
    let numbers = class_numbers(alloc, core)?;
    let mut makes = HashMap::new(alloc);
    let mut i = mains.len();
    while i > 0 {
        i -= 1;
        let main = &mains[i];
        let class = String::from_str(alloc, main.class.as_str())?;
        let made = role_class(alloc, main.role.as_str())?;
        write_making(&mut makes, class, numbers.get(made.as_str()).copied())?;
    }
    Ok(makes)
}

// Writes of which class the `main` of a class may make an object, or that there is no such class.
fn write_making(
    makes: &mut HashMap<String, u32>,
    class: String,
    number: Option<u32>,
) -> Result<(), Memory>
    ensures { OnOk result ((q : Name) → get_by_text makes.new q ≡ update bytes_eq (get_by_text makes.old) (string_bytes class) number q) }
{
    let Some(number) = number else {
        makes.remove(class.as_str());
        return Ok(());
    };
    makes.insert(class, number)?;
    Ok(())
}

/// Whether a method is a `main`.
pub(crate) fn is_main(method: &CoreMethod) -> bool
    ensures { result ≡ is_main method.now.kind }
{
    match method.kind {
        MethodKind::Main => true,
        MethodKind::Static | MethodKind::Helper | MethodKind::Protocol => false,
    }
}

/// The name of the class of this number, if there is one.
#[tactic(auto, using(jv_core::proofs::Found::found))]
pub(crate) fn class_name(core: &Core, class: u32) -> Option<&str>
    ensures { option_map (λ name. name.now) result ≡ class_text core.now class }
{
    match core.classes().get(class as usize) {
        Some(class) => Some(name_text(core, class.name)),
        None => None,
    }
}

// The class of whose objects a method may make one.
fn to_make(core: &Core, makes: &HashMap<String, u32>, method: &CoreMethod) -> Option<u32>
    ensures { (mains : Seq Main) → MakesBy core.now mains makes.now → result ≡ class_to_make core.now mains (method_of method.now) }
{
    if !is_main(method) {
        return None;
    }
    match class_name(core, method.class) {
        Some(name) => makes.get(name).copied(),
        None => None,
    }
}

// Whether a method is of a class that is generated of the protocol of a role.
fn is_generated(core: &Core, classes: &HashSet<String>, method: &CoreMethod) -> bool
    ensures { (roles : Seq Name) → HoldsClasses roles classes.now → result ≡ has_role_class roles core.now (method_of method.now).class }
{
    match class_name(core, method.class) {
        Some(name) => classes.contains(name),
        None => false,
    }
}

// Appends the uses of a method but for the making of its role.
fn add_method(
    uses: &mut List<Use>,
    core: &Core,
    makes: &HashMap<String, u32>,
    method: &CoreMethod,
) -> Result<(), Memory>
    ensures { (mains : Seq Main) → MakesBy core.now mains makes.now →
        OnOk result (uses.new.items ≡ uses.old.items ++ uses_of_method core.now mains (method_of method.now)) }
{
    let body = method.body.as_slice();
    match to_make(core, makes, method) {
        Some(class) => add_uses_beside_making(uses, class, body),
        None => uses_in_all(uses, body),
    }
}

/// The uses of all methods, but for those of the classes that are generated of protocols of roles,
/// and but for the makings of the roles, in the order of the files and their texts.
pub(crate) fn own_uses(
    alloc: Global,
    core: &Core,
    classes: &HashSet<String>,
    makes: &HashMap<String, u32>,
) -> Result<List<Use>, Memory>
    ensures { (roles : Seq Name) (mains : Seq Main) → HoldsClasses roles classes.now → MakesBy core.now mains makes.now →
        IfOk result (λ uses. uses.items ≡ own_uses roles core.now mains) }
{
    let mut uses = List::new(alloc);
    for method in core.methods() {
        if is_generated(core, classes, method) {
            continue;
        }
        add_method(&mut uses, core, makes, method)?;
    }
    Ok(uses)
}
