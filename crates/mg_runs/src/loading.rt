//! Class files are read back and linked. Those of a program always are.

ghost use Rattle.std.specs.Prelude.{map, IfOk};
ghost use Rattle.cls_tree.specs.View.{class_of as file_of};
ghost use Rattle.mg_compile.specs.Files.{AreClassFiles};
ghost use Rattle.mg_compile.specs.View.{IsOfFiles};
ghost use Rattle.mg_runs.specs.Runs.{AreSpelled, IsLoaded};
ghost use Rattle.mg_runs.specs.inner.Loading.{HaveFiles};

use crate::laws::written_classes_link;
use cls_bytes::{ClassFault, read_class};
use cls_tree::Class;
use jv_core::Core;
use mg_compile::ClassFile;
use mg_text::{List, Memory};
use std::alloc::Global;
use vm_load::{LoadFault, load};
use vm_model::Linked;

/// The linked program of the class files of a core.
pub(crate) fn load_back(alloc: Global, core: &Core, files: &[ClassFile]) -> Result<Linked, Memory>
    requires files { IsOfFiles core.now }
    requires made { AreClassFiles core.now files.now }
    ensures { IfOk result (IsLoaded (map (λ f. f.bytes) files.now)) }
{
    written_classes_link();
    let classes = read_all(alloc, files)?;
    match load(alloc, classes.as_slice()) {
        Ok(linked) => Ok(linked),
        Err(fault) => match fault {
            LoadFault::Memory => Err(Memory),
            _ => unreachable!(),
        },
    }
}

// The class files that these bytes spell.
fn read_all(alloc: Global, files: &[ClassFile]) -> Result<List<Class>, Memory>
    requires { HaveFiles files.now }
    ensures { IfOk result (λ l. AreSpelled (map (λ f. f.bytes) files.now) (map file_of l.items)) }
{
    let mut classes = List::new(alloc);
    for file in files {
        match read_class(alloc, file.bytes.as_slice()) {
            Ok(class) => classes.push(class)?,
            Err(fault) => match fault {
                ClassFault::Memory => return Err(Memory),
                _ => unreachable!(),
            },
        }
    }
    Ok(classes)
}
