//! The class files of a core: generated, written to bytes, and named after their classes.

ghost use Rattle.std.specs.Prelude.{◌≡◌, length, map, IfOk};
ghost use Rattle.std.specs.List.{AllByRecursion};
ghost use Rattle.cls_tree.specs.View.{class_of as file_of};
ghost use Rattle.cls_bytes.specs.Spelling.{ClassSpells};
ghost use Rattle.jv_core.specs.View.{class_of};
ghost use Rattle.gen_links.specs.Spelled.{IsSpelled};
ghost use Rattle.mg_compile.specs.Files.{AreClassFiles, HoldsClass, HoldClasses};
ghost use Rattle.mg_compile.specs.View.{IsOfFiles};
ghost use Rattle.mg_refusal.specs.Order.{Answers};
ghost use Rattle.mg_compile.specs.Compiled.{ExcessRefusal};

use crate::excess::stop_of;
use cls_bytes::{WriteFault, write_class};
use cls_tree::Class;
use gen_class::gen_classes;
use gen_held::written_cores_are_held;
use gen_links::{files_fit, members_are_few};
use jv_core::{Core, CoreClass, name_text};
use jv_names::core_is_kept;
use jv_resolve_law::spelled_is_shaped;
use mg_refusal::Stop;
use mg_text::{Bytes, List, Memory, Text};
use std::alloc::Global;

/// A class file: its name, which is that of its class with `.class` behind it, and its bytes.
#[derive(Drop)]
pub struct ClassFile {
    pub name: Text,
    pub bytes: Bytes,
}

/// The class files of a core that was resolved of some files, in the order of its classes.
///
/// # Errors
/// `Refused` with the first size that is too large. `Memory` where memory is wanted.
pub fn class_files(alloc: Global, core: &Core) -> Result<List<ClassFile>, Stop>
    requires { IsOfFiles core.now }
    ensures { Answers (λ written. AreClassFiles core.now written.items) (ExcessRefusal core.now) result }
{
    spelled_is_shaped();
    core_is_kept();
    written_cores_are_held();
    members_are_few();
    files_fit();
    match gen_classes(alloc, core) {
        Ok(classes) => Ok(write_all(alloc, core, core.classes(), classes.as_slice())?),
        Err(fault) => Err(stop_of(fault)),
    }
}

// One file for each of these classes, in their order.
fn write_all(
    alloc: Global,
    core: &Core,
    own: &[CoreClass],
    classes: &[Class],
) -> Result<List<ClassFile>, Memory>
    requires spelled { AllByRecursion IsSpelled (map file_of classes.now) }
    requires same { length own.now ≡ length classes.now }
    ensures { IfOk result (λ l. HoldClasses core.now (map class_of own.now) (map file_of classes.now) l.items) }
{
    let mut files = List::new(alloc);
    for number in 0..classes.len() {
        files.push(write_one(alloc, core, &own[number], &classes[number])?)?;
    }
    Ok(files)
}

// The file of a class.
fn write_one(
    alloc: Global,
    core: &Core,
    own: &CoreClass,
    class: &Class,
) -> Result<ClassFile, Memory>
    requires { IsSpelled (file_of class.now) }
    ensures { IfOk result (λ f. HoldsClass core.now (class_of own.now) (file_of class.now) f) }
{
    let mut name = String::from_str(alloc, name_text(core, own.name))?;
    name.push_str(".class")?;
    let bytes = bytes_of(alloc, class)?;
    Ok(ClassFile {
        name: Text::from_string(name),
        bytes,
    })
}

// The bytes of a class file.
fn bytes_of(alloc: Global, class: &Class) -> Result<Bytes, Memory>
    requires { IsSpelled (file_of class.now) }
    ensures { IfOk result (λ b. ClassSpells b (file_of class.now)) }
{
    match write_class(alloc, class) {
        Ok(bytes) => Ok(bytes),
        Err(WriteFault::Memory) => Err(Memory),
        Err(WriteFault::Code(_)) => unreachable!(),
    }
}
