//! The methods of a class, with their codes.

ghost use Rattle.std.specs.Prelude.{◌≡◌, ℕ, [], ◌∷◌, ◌++◌, map, option_map, slice_get, filter_map, IfOk, OnOk};
ghost use Rattle.jv_core.specs.Tree.{Class, Program};
ghost use Rattle.jv_core.specs.View.{class_of, method_of};
ghost use Rattle.gen_expressions.specs.View.{instrs_of};
ghost use Rattle.gen_rules.specs.Classes.{access_of, all_initialised, constructor_code, constructor_stack, constructor, constructors};
ghost use Rattle.gen_rules.specs.inner.Files.{generated_method, generated_class};
ghost use Rattle.gen_members.specs.Parts.{compiled_of};

use gen_members::{Making, constructor_code, method_descriptor};
use gen_symbolic::{MethodCode, Symbolic, method_code};
use jv_core::{Core, CoreClass, CoreMethod, MethodKind, name_text};
use mg_text::{List, Memory};
use std::alloc::Global;

const PUBLIC: u16 = 1;

const PRIVATE: u16 = 2;

const PUBLIC_STATIC: u16 = 9;

/// The access flags of a method.
fn access_of(kind: MethodKind) -> u16
    ensures { result ≡ access_of kind }
{
    match kind {
        MethodKind::Protocol => PUBLIC,
        MethodKind::Helper => PRIVATE,
        MethodKind::Main | MethodKind::Static => PUBLIC_STATIC,
    }
}

/// A method with its code.
pub(crate) fn method_making<'a>(
    alloc: Global,
    core: &'a Core,
    method: &'a CoreMethod,
) -> Result<Making<'a>, Memory>
    ensures { IfOk result (λ m. compiled_of core.now m ≡ generated_method core.now (method_of method.now)) }
{
    let descriptor = method_descriptor(alloc, core, method)?;
    let MethodCode {
        instrs,
        max_stack,
        max_locals,
    } = method_code(alloc, core, method)?;
    let name = name_text(core, method.name);
    Ok(Making {
        access: access_of(method.kind),
        name,
        descriptor,
        max_stack,
        max_locals,
        instrs,
        place: method.place,
        told_as: name,
    })
}

/// How deep the stack of a constructor with this code is. Three instructions stand in the code of one
/// that sets no field.
#[tactic(auto, using(crate::proofs::Programs::depths))]
fn depth_of(instrs: &[Symbolic<'_>]) -> u32
    ensures { (p : Program) (number : ℕ) (class : Class) → instrs_of p instrs.now ≡ constructor_code p number class →
        result ≡ constructor_stack (all_initialised p number 0 class.fields) }
{
    if instrs.len() > 3 { 2 } else { 1 }
}

/// The constructor of a class.
fn constructor_making<'a>(
    alloc: Global,
    core: &'a Core,
    number: usize,
    class: &'a CoreClass,
) -> Result<Making<'a>, Memory>
    ensures { IfOk result (λ m. compiled_of core.now m ≡ constructor core.now number (class_of class.now)) }
{
    let Ok(number) = u32::try_from(number) else {
        return Err(Memory);
    };
    let descriptor = String::from_str(alloc, "()V")?;
    let instrs = constructor_code(alloc, number, class)?;
    Ok(Making {
        access: PUBLIC,
        name: "<init>",
        descriptor,
        max_stack: depth_of(instrs.as_slice()),
        max_locals: 1,
        instrs,
        place: class.place,
        told_as: name_text(core, class.name),
    })
}

/// The constructor of a class that has one.
fn constructors<'a>(
    alloc: Global,
    core: &'a Core,
    number: usize,
    class: &'a CoreClass,
) -> Result<List<Making<'a>>, Memory>
    ensures { IfOk result (λ ms. map (compiled_of core.now) ms.items
        ≡ constructors core.now number (class_of class.now) class.now.typestate) }
{
    let mut makings = List::new(alloc);
    match class.typestate {
        None => Ok(makings),
        Some(_) => {
            makings.push(constructor_making(alloc, core, number, class)?)?;
            Ok(makings)
        }
    }
}

/// The method with this number, where there is one.
#[tactic(auto, using(crate::proofs::Programs::found_here))]
fn method_at(core: &Core, number: u32) -> Option<&CoreMethod>
    ensures { option_map (λ m. method_of m.now) result ≡ slice_get core.now.methods number }
{
    core.methods().get(number as usize)
}

/// Appends the method with this number, where there is one.
fn push_method<'a>(
    alloc: Global,
    core: &'a Core,
    number: u32,
    makings: &mut List<Making<'a>>,
) -> Result<(), Memory>
    ensures { OnOk result (map (compiled_of core.now) makings.new.items ≡ map (compiled_of core.now) makings.old.items
        ++ map (generated_method core.now) (filter_map (slice_get core.now.methods) (number ∷ []))) }
{
    let Some(method) = method_at(core, number) else {
        return Ok(());
    };
    makings.push(method_making(alloc, core, method)?)?;
    Ok(())
}

/// Appends the methods with these numbers.
fn push_methods<'a>(
    alloc: Global,
    core: &'a Core,
    numbers: &[u32],
    makings: &mut List<Making<'a>>,
) -> Result<(), Memory>
    ensures { OnOk result (map (compiled_of core.now) makings.new.items ≡ map (compiled_of core.now) makings.old.items
        ++ map (generated_method core.now) (filter_map (slice_get core.now.methods) numbers.now)) }
{
    for number in numbers {
        push_method(alloc, core, *number, makings)?;
    }
    Ok(())
}

/// The methods of a class, which has this number in the program: its constructor first, where it has
/// one.
pub(crate) fn makings<'a>(
    alloc: Global,
    core: &'a Core,
    number: usize,
    class: &'a CoreClass,
) -> Result<List<Making<'a>>, Memory>
    ensures { IfOk result (λ ms. map (compiled_of core.now) ms.items ≡ generated_class core.now number
        (class_of class.now)) }
{
    let mut makings = constructors(alloc, core, number, class)?;
    push_methods(alloc, core, class.methods.as_slice(), &mut makings)?;
    Ok(makings)
}
