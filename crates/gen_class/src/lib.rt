//! The class files of a resolved program, one for each class, or the first of their sizes that is
//! too large; and the code of one method alone.
#![tactic(auto)]

ghost use Rattle.std.specs.Prelude.{◌≡◌, [], None, map, IfOk, OnOk, IfErr};
ghost use Rattle.cls_tree.specs.View.{class_of as file_of, code_of};
ghost use Rattle.jv_core.specs.View.{class_of, method_of};
ghost use Rattle.gen_rules.specs.Classes.{AreClasses, Emits, class_file};
ghost use Rattle.gen_rules.specs.Limits.{IsFirstExcess, parts_in, first_in_parts};
ghost use Rattle.gen_rules.specs.inner.Files.{generated_class};
ghost use Rattle.gen_members.specs.Told.{Tells};
ghost use Rattle.gen_pool.specs.Made.{IsFrontOf};
ghost use Rattle.gen_class.specs.First.{TellsFirst, IsExcessOfCode, TellsCode};

mod making;

use crate::making::{makings, method_making};
use cls_tree::{Class, Code};
pub use gen_members::GenFault;
use gen_members::{class_file, code};
use gen_pool::Pool;
use jv_core::{Core, CoreClass, CoreMethod};
use mg_text::List;
use std::alloc::Global;

/// The class file of a class, which has this number in the program.
fn file_of(alloc: Global, core: &Core, number: usize, class: &CoreClass) -> Result<Class, GenFault>
    ensures made { IfOk result (λ f. file_of f
        ≡ class_file core.now (class_of class.now) (generated_class core.now number (class_of class.now))) }
    ensures fine { OnOk result (first_in_parts core.now (class_of class.now)
        (parts_in (class_of class.now) (generated_class core.now number (class_of class.now))) [] ≡ None) }
    ensures fault { IfErr result (λ e. Tells (first_in_parts core.now (class_of class.now)
        (parts_in (class_of class.now) (generated_class core.now number (class_of class.now))) []) e) }
{
    let makings = makings(alloc, core, number, class)?;
    class_file(alloc, core, class, makings.as_slice())
}

/// The class files of a program, in the order of its classes.
/// # Errors
/// The first size that is too large, with the place and the name of the method, or of the class
/// where it isn't a written method's; and want of memory.
pub fn gen_classes(alloc: Global, core: &Core) -> Result<List<Class>, GenFault>
    ensures made { IfOk result (λ files. AreClasses core.now (map file_of files.items)) }
    ensures fine { OnOk result (IsFirstExcess core.now None) }
    ensures fault { IfErr result (TellsFirst core.now) }
{
    let mut files = List::new(alloc);
    let classes = core.classes();
    for number in 0..classes.len() {
        files.push(file_of(alloc, core, number, &classes[number])?)?;
    }
    Ok(files)
}

/// The code of a method, as it stands in a class file whose pool is this one. The constants that it
/// needs are found in the pool or appended. Also after a fault the pool holds its old entries first.
/// # Errors
/// The first size of the code that is too large, with the place and the name of the method; and want
/// of memory.
pub fn code_of_method(
    alloc: Global,
    core: &Core,
    method: &CoreMethod,
    pool: &mut Pool,
) -> Result<Code, GenFault>
    ensures emitted { IfOk result (λ c. Emits core.now (method_of method.now) pool.old (code_of c) pool.new) }
    ensures fine { OnOk result (IsExcessOfCode core.now (method_of method.now) pool.old None) }
    ensures fault { IfErr result (TellsCode core.now (method_of method.now) pool.old) }
    ensures kept { IsFrontOf pool.old pool.new }
{
    let making = method_making(alloc, core, method)?;
    code(alloc, core, &making, pool)
}
