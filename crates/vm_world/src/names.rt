//! The names of a program's methods, by the numbers of the texts that kept events have of them.

ghost use Rattle.std.specs.Prelude.{◌≡◌, option_map, slice_get, get_or, IfOk};
ghost use Rattle.vm_model.specs.View.{class_of};
ghost use Rattle.vm_events.specs.Seen.{Grows};
ghost use Rattle.vm_world.specs.Names.{AreClassNames, AreNames, number_in, number_at, numbered_by};

use mg_text::{List, Memory};
use std::alloc::Global;
use vm_events::{Events, Numbered};
use vm_model::{Linked, LinkedClass};
use vm_step::Telling;

/// The numbers of the names of a class's methods, in their order.
#[derive(Drop)]
pub(crate) struct ClassNames {
    pub methods: List<u32>,
}

/// The numbers of the names of methods, for each class of a program.
#[derive(Drop)]
pub(crate) struct MethodNames {
    pub classes: List<ClassNames>,
}

/// The numbers of the names of a class's methods, which are kept.
fn class_names(
    alloc: Global,
    class: &LinkedClass,
    events: &mut Events,
) -> Result<ClassNames, Memory>
    ensures items { events.new.items ≡ events.old.items }
    ensures texts { Grows events.old.texts events.new.texts }
    ensures named { IfOk result (λ names. AreClassNames events.new.texts names (class_of class.now)) }
{
    let mut methods = List::new(alloc);
    for method in class.methods.as_slice() {
        methods.push(events.number_of(alloc, method.name.as_str())?)?;
    }
    Ok(ClassNames { methods })
}

/// The number of the name of a class's method; 0 where there is none of this number.
fn number_in(names: Option<&ClassNames>, method: u32) -> u32
    ensures { result ≡ number_in (option_map (λ n. n.now) names.entry) method }
{
    let Some(names) = names else {
        return 0;
    };
    match names.methods.as_slice().get(method as usize) {
        Some(number) => *number,
        None => 0,
    }
}

impl MethodNames {
    /// The numbers of the names of a program's methods, which are kept.
    ///
    /// # Errors
    /// `Memory` only.
    pub(crate) fn of(
        alloc: Global,
        linked: &Linked,
        events: &mut Events,
    ) -> Result<MethodNames, Memory>
        ensures items { events.new.items ≡ events.old.items }
        ensures texts { Grows events.old.texts events.new.texts }
        ensures named { IfOk result (λ names. AreNames events.new.texts names linked.now) }
    {
        let mut classes = List::new(alloc);
        for class in linked.classes() {
            classes.push(class_names(alloc, class, events)?)?;
        }
        Ok(MethodNames { classes })
    }

    /// The number of the name of a method; 0 where there is none.
    fn number(&self, class: u32, method: u32) -> u32
        ensures { result ≡ number_at self.now class method }
    {
        number_in(self.classes.as_slice().get(class as usize), method)
    }

    /// What is told, as events number it.
    pub(crate) fn numbered(&self, telling: Telling) -> Numbered
        ensures { result ≡ numbered_by self.now telling }
    {
        match telling {
            Telling::Enter {
                object,
                class,
                method,
            } => Numbered::Enter {
                object,
                method: self.number(class, method),
            },
            Telling::Leave { object, answer } => Numbered::Leave { object, answer },
        }
    }
}
