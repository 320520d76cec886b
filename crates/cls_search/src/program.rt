//! A whole program: each of its methods.

ghost use Rattle.std.specs.Prelude.{◌≡◌, ◌<◌, ℕ, length, get_or, IfOk, IfErr};
ghost use Rattle.vm_model.specs.declared.linked.LinkedMethod.{LinkedMethod as Method};
ghost use Rattle.vm_model.specs.Program.{Program};
ghost use Rattle.vm_model.specs.View.{class_of, classes_of};
ghost use Rattle.cls_table.specs.Tables.{AreKinds};
ghost use Rattle.cls_verify.specs.Typing.{AllTypable};
ghost use Rattle.cls_search.specs.declared.fault.VerifyFault.TheVariants as faults;
ghost use Rattle.cls_search.specs.Beginning.{ClassIs, FirstOr};
ghost use Rattle.cls_search.specs.Verified.{FirstOrAll, Says};

use crate::fault::VerifyFault;
use crate::method::is_typable;
use cls_table::{ClassKinds, ProgramKinds};
use mg_text::{Memory, Text};
use std::alloc::Global;
use vm_model::{Linked, LinkedClass};

/// A method, by the number of its class and its own number there.
#[derive(Clone, Copy)]
struct Place {
    class: usize,
    method: usize,
}

/// The number of the first method of a class that has no typing.
fn first_untypable(
    alloc: Global,
    program: &ProgramKinds,
    class: &LinkedClass,
    kinds: &ClassKinds,
) -> Result<Option<usize>, Memory>
    requires { (p : Program) × ((c : ℕ) × ClassIs p c program.now (class_of class.now) kinds.now) }
    ensures { IfOk result (λ o. (p : Program) (c : ℕ) → ClassIs p c program.now (class_of class.now) kinds.now → FirstOr p c o) }
{
    for (number, method) in class.methods.as_slice().iter().enumerate() {
        let is_typable = is_typable(alloc, program, method, &kinds.methods[number])?;
        if !is_typable {
            return Ok(Some(number));
        }
    }
    Ok(None)
}

/// The first method that has no typing, by the order of the classes and of their methods.
fn first_place(
    alloc: Global,
    program: &ProgramKinds,
    classes: &[LinkedClass],
) -> Result<Option<Place>, Memory>
    requires { AreKinds (classes_of classes.now) program.now }
    ensures { IfOk result (λ o. FirstOrAll (classes_of classes.now) o) }
{
    for (number, class) in classes.iter().enumerate() {
        let first = first_untypable(alloc, program, class, &program.classes[number])?;
        if let Some(method) = first {
            return Ok(Some(Place {
                class: number,
                method,
            }));
        }
    }
    Ok(None)
}

/// That a method of a class has no typing.
fn unverified(alloc: Global, class: &LinkedClass, method: usize) -> Result<VerifyFault, Memory>
    requires { method < length class.now.methods.items }
    ensures { IfOk result (λ f. (d : Method) → f ≡ faults.Unverified class.now.name (get_or class.now.methods.items method d).name) }
{
    let class_name = Text::of(alloc, class.name.as_str())?;
    let found = &class.methods.as_slice()[method];
    let method_name = Text::of(alloc, found.name.as_str())?;
    Ok(VerifyFault::Unverified {
        class: class_name,
        method: method_name,
    })
}

/// Whether each method of a program has a typing.
///
/// # Errors
/// `Unverified` exactly where one has none: it names the first such one, by the order of the classes
/// and of their methods. `Memory` else.
pub fn verify(alloc: Global, linked: &Linked) -> Result<(), VerifyFault>
    ensures ok { IfOk result (λ _. AllTypable linked.now) }
    ensures err { IfErr result (λ fault. Says linked.now fault) }
{
    let program = ProgramKinds::of(alloc, linked)?;
    let classes = linked.classes();
    let first = first_place(alloc, &program, classes);
    drop(program);
    let first = first?;
    let Some(place) = first else {
        return Ok(());
    };
    let fault = unverified(alloc, &classes[place.class], place.method)?;
    Err(fault)
}
