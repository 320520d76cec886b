//! Class files that are loaded together, judged and linked.

ghost use Rattle.std.specs.Prelude.{◌≡◌, [], ◌++◌, map, None, IfOk, IfErr, List as Seq};
ghost use Rattle.std.specs.List.{flat_map};
ghost use Rattle.cls_tree.specs.View.{class_of};
ghost use Rattle.vm_model.specs.View as model;
ghost use Rattle.vm_model.specs.Links.{Flaw, Links, least, duplicates, class_flaws, linked_class, outline};
ghost use Rattle.vm_load.specs.Faults.{IsLeast, IsRefused};
ghost use Rattle.vm_load.specs.Outlines.{outlines_of, names_of, is_taken};

use crate::classes::judge_class;
use crate::fault::{LoadFault, duplicate_class};
use crate::outline::{Outline, outlines};
use cls_tree::Class;
use mg_text::{List, Memory, Names};
use std::alloc::Global;
use vm_model::{Linked, LinkedClass, is_built_in};

/// Whether a name is that of a class before, or of a built-in class.
fn is_taken(names: &Names, name: &str) -> bool
    ensures { result ≡ is_taken names.now name.now }
{
    match names.find(name) {
        Some(_number) => true,
        None => is_built_in(name),
    }
}

/// The names of classes in a table: they are distinct, and none is that of a built-in class.
fn table_of(alloc: Global, outlines: &[Outline<'_>]) -> Result<Names, LoadFault>
    ensures names { IfOk result (λ n. n ≡ names_of (outlines_of outlines.now)) }
    ensures distinct { IfOk result (λ _. duplicates [] (names_of (outlines_of outlines.now)) ≡ []) }
    ensures refused { (rest : Seq Flaw) → IfErr result (λ f. IsLeast f (duplicates [] (names_of (outlines_of outlines.now)) ++ rest)) }
{
    let mut names = Names::new(alloc);
    for outline in outlines {
        if is_taken(&names, outline.name) {
            return Err(duplicate_class(alloc, outline.name));
        }
        if names.len() > 0xffff_fffe {
            return Err(LoadFault::Memory);
        }
        match names.add(outline.name) {
            Ok(_name) => {}
            Err(_memory) => return Err(LoadFault::Memory),
        }
    }
    Ok(names)
}

/// The classes, of which these are the outlines, or the first flaw of the lowest number.
fn judge_classes(
    alloc: Global,
    outlines: &[Outline<'_>],
    names: &Names,
    classes: &[Class],
) -> Result<List<LinkedClass>, LoadFault>
    requires names { names.now ≡ names_of (outlines_of outlines.now) }
    requires same { outlines_of outlines.now ≡ map outline (map class_of classes.now) }
    ensures right { IfOk result (λ l. map model.class_of l.items ≡ map (linked_class (outlines_of outlines.now))
        (map class_of classes.now)) }
    ensures none { IfOk result (λ _. None ≡ least (flat_map (class_flaws (outlines_of outlines.now)) (map class_of classes.now))) }
    ensures refused { IfErr result (λ f. IsLeast f (flat_map (class_flaws (outlines_of outlines.now)) (map class_of classes.now))) }
{
    let mut linked = List::new(alloc);
    let mut best = None;
    for (number, class) in classes.iter().enumerate() {
        let own = &outlines[number];
        let one = judge_class(alloc, outlines, names, own, class, &mut best)?;
        linked.push(one)?;
    }
    match best {
        Some(fault) => Err(fault),
        None => Ok(linked),
    }
}

/// The program that class files link to, which are loaded together.
///
/// # Errors
/// Exactly where they don't link: the first flaw of the lowest number, in the order class by class,
/// in it the super class, the descriptors of fields and of methods, and what instructions name, by
/// method and place. `Memory` may come at any point.
pub fn load(alloc: Global, classes: &[Class]) -> Result<Linked, LoadFault>
    ensures found { IfOk result (Links (map class_of classes.now)) }
    ensures refused { IfErr result (λ f. IsRefused f (map class_of classes.now)) }
{
    let outlines = outlines(alloc, classes)?;
    let known = outlines.as_slice();
    let names = match table_of(alloc, known) {
        Ok(names) => names,
        Err(fault) => return Err(fault),
    };
    match judge_classes(alloc, known, &names, classes) {
        Ok(linked) => Ok(Linked::new(linked)),
        Err(fault) => Err(fault),
    }
}
