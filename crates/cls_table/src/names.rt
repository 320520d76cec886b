//! The names of all classes that a linked program may name, each once: `Object`'s first and `PrintStream`'s second.

ghost use Rattle.std.specs.Prelude.{◌≡◌, ◌<◌, [], true, Some, position, IfOk, OnOk};
ghost use Rattle.std.specs.Str.{bytes_eq};
ghost use Rattle.mg_text.specs.Call.{Name as Named};
ghost use Rattle.mg_text.specs.Interned.{with_text};
ghost use Rattle.vm_model.specs.Linked.{is_built_in};
ghost use Rattle.vm_model.specs.View.{classes_of};
ghost use Rattle.cls_kinds.specs.Named.{AreNames};
ghost use Rattle.cls_table.specs.Known.{IsKnown, KnowsNames};

use mg_text::{Memory, Names};
use std::alloc::Global;
use vm_model::{
    LinkedClass, OBJECT_CLASS, PRINT_STREAM_CLASS, SESSION_CLASS, STRING_CLASS, SYSTEM_CLASS,
};

/// Adds a name, where the table has room for it among the numbers of kinds.
pub(crate) fn add_name(names: &mut Names, name: &str) -> Result<(), Memory>
    ensures added { OnOk result (names.new ≡ with_text names.old name.now) }
    ensures known { OnOk result (IsKnown names.new name.now) }
{
    if names.len() > 0xffff_fff0 {
        return Err(Memory);
    }
    let _name = names.add(name)?;
    Ok(())
}

/// Adds the names of the built-in classes, where there are none.
fn add_built_in(names: &mut Names) -> Result<(), Memory>
    requires { names.old ≡ [] }
    ensures are { OnOk result (AreNames names.new) }
    ensures known { OnOk result ((name : Named) → is_built_in name ≡ true → IsKnown names.new name) }
{
    add_name(names, OBJECT_CLASS)?;
    add_name(names, PRINT_STREAM_CLASS)?;
    add_name(names, STRING_CLASS)?;
    add_name(names, SYSTEM_CLASS)?;
    add_name(names, SESSION_CLASS)?;
    Ok(())
}

/// The names of the built-in classes and of those of a program.
pub(crate) fn class_names(alloc: Global, classes: &[LinkedClass]) -> Result<Names, Memory>
    ensures { IfOk result (λ n. KnowsNames n (classes_of classes.now)) }
{
    let mut names = Names::new(alloc);
    add_built_in(&mut names)?;
    for class in classes {
        add_name(&mut names, class.name.as_str())?;
    }
    Ok(names)
}

/// The number of a name.
pub(crate) fn number_of(names: &Names, name: &str) -> u32
    requires { IsKnown names.now name.now }
    ensures found { position (bytes_eq name.now) names.now ≡ Some result }
    ensures few { result < 4294967281 }
{
    match names.find(name) {
        Some(found) => found.0,
        None => unreachable!(),
    }
}
