//! The results of methods, by the names of their classes and by their own.

ghost use Rattle.std.specs.Prelude.{◌≡◌, ◌++◌, ◌∷◌, [], ℕ, List as Seq, IfOk, OnOk};
ghost use Rattle.std.specs.HashMap.{get_by_text};
ghost use Rattle.mg_text.specs.Call.{Name};
ghost use Rattle.jv_core.specs.Tree.{Class};
ghost use Rattle.jv_core.specs.View.{class_of};
ghost use Rattle.mg_trace.specs.Trace.{methods_of, result_in};
ghost use Rattle.mg_trace.specs.inner.Tabled.{AreMethods, AreClasses, AreResults, result_by};

use jv_core::{Core, CoreClass, CoreType, name_text};
use mg_text::Memory;
use std::alloc::Global;
use std::collections::HashMap;

/// The results of the methods of a program.
#[derive(Drop)]
pub(crate) struct Results {
    // For each name of a class the results of its methods by their names.
    by_class: HashMap<String, HashMap<String, CoreType>>,
}

/// How the answers of methods are told.
#[derive(Clone, Copy)]
pub(crate) enum Answers<'a> {
    /// By the types that methods have in a program.
    ByTypes(&'a Core, &'a Results),
    /// As the numbers that they are.
    AsNumbers,
}

impl Results {
    /// Those of this program.
    pub(crate) fn of(alloc: Global, core: &Core) -> Result<Results, Memory>
        ensures { IfOk result (AreResults core.now) }
    {
        let mut by_class = HashMap::new(alloc);
        for class in core.classes() {
            add_class(alloc, core, class, &mut by_class)?;
        }
        Ok(Results { by_class })
    }

    /// The result of the method of this name, of the class of this name.
    pub(crate) fn find(&self, class: &str, method: &str) -> Option<CoreType>
        ensures { result ≡ result_by self.now class.now method.now }
    {
        match self.by_class.get(class) {
            Some(own) => own.get(method).copied(),
            None => None,
        }
    }
}

// Adds the methods of a class, unless there was one of its name before.
fn add_class(
    alloc: Global,
    core: &Core,
    class: &CoreClass,
    by_class: &mut HashMap<String, HashMap<String, CoreType>>,
) -> Result<(), Memory>
    ensures { (before : Seq Class) → AreClasses core.now before by_class.old
        → OnOk result (AreClasses core.now (before ++ class_of class.now ∷ []) by_class.new) }
{
    let name = name_text(core, class.name);
    if by_class.contains_key(name) {
        return Ok(());
    }
    let key = String::from_str(alloc, name)?;
    let own = results_of(alloc, core, class)?;
    by_class.insert(key, own)?;
    Ok(())
}

// The results of the methods of a class.
fn results_of(
    alloc: Global,
    core: &Core,
    class: &CoreClass,
) -> Result<HashMap<String, CoreType>, Memory>
    ensures { IfOk result (AreMethods core.now class.now.methods.items) }
{
    let mut own = HashMap::new(alloc);
    for number in class.methods.as_slice() {
        add_method(alloc, core, *number, &mut own)?;
    }
    Ok(own)
}

// Adds the method of a number, unless there was one of its name before.
fn add_method(
    alloc: Global,
    core: &Core,
    number: u32,
    own: &mut HashMap<String, CoreType>,
) -> Result<(), Memory>
    ensures { (before : Seq ℕ) → AreMethods core.now before own.old
        → OnOk result (AreMethods core.now (before ++ number ∷ []) own.new) }
{
    let Some(method) = core.methods().get(number as usize) else {
        return Ok(());
    };
    let name = name_text(core, method.name);
    if own.contains_key(name) {
        return Ok(());
    }
    let key = String::from_str(alloc, name)?;
    own.insert(key, method.result)?;
    Ok(())
}
