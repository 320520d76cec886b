//! Programs of flat instructions: one for each instruction of a linked program, by class and method.

ghost use Rattle.std.specs.Prelude.{◌≡◌, map, option_map, slice_get, IfOk, IsSome, Some};
ghost use Rattle.std.specs.List.{AllZip};
ghost use Rattle.vm_model.specs.Program.{Program};
ghost use Rattle.vm_model.specs.Program as model;
ghost use Rattle.vm_model.specs.View.{instr_of, method_of, class_of};
ghost use Rattle.vm_flat.specs.Flat.{IsFlatInstr, IsFlatMethod, IsFlatClass, IsFlatOf, StandsFor, flat_method_at};

use crate::flat::Flat;
use crate::shape::flat_instr;
use mg_text::{List, Memory};
use std::alloc::Global;
use vm_model::{Linked, LinkedClass, LinkedInstr, LinkedMethod};

/// A method's code, how many locals it has, and how many parameters its descriptor has.
pub struct FlatMethod {
    pub code: List<Flat>,
    pub max_locals: u16,
    pub params: u32,
}

impl Drop for FlatMethod {
    fn drop(self) {
        let FlatMethod {
            code: _,
            max_locals: _,
            params: _,
        } = self;
    }
}

/// The methods of a class.
pub struct FlatClass {
    pub methods: List<FlatMethod>,
}

impl Drop for FlatClass {
    fn drop(self) {
        let FlatClass { methods: _ } = self;
    }
}

/// The methods of a program, by the numbers of their classes and their own.
pub struct FlatProgram {
    pub classes: List<FlatClass>,
}

// One call lets go of it, wherever a function ends.
impl Drop for FlatProgram {
    fn drop(self) {
        let FlatProgram { classes: _ } = self;
    }
}

/// The flat instructions of a code.
fn flat_code(alloc: Global, code: &[LinkedInstr]) -> Result<List<Flat>, Memory>
    ensures { IfOk result (λ l. AllZip IsFlatInstr l.items (map instr_of code.now)) }
{
    let mut flat = List::new(alloc);
    for instr in code {
        flat.push(flat_instr(instr))?;
    }
    Ok(flat)
}

/// How many operands a method may have: a number of 16 bits, by which it is known that a frame has room for them.
fn max_stack(method: &LinkedMethod) -> u16
    ensures { result ≡ (method_of method.now).max_stack }
{
    method.max_stack
}

/// A method of flat instructions.
fn flat_method(alloc: Global, method: &LinkedMethod) -> Result<FlatMethod, Memory>
    ensures { IfOk result (λ f. IsFlatMethod f (method_of method.now)) }
{
    let code = flat_code(alloc, method.code.as_slice())?;
    let _room = max_stack(method);
    Ok(FlatMethod {
        code,
        max_locals: method.max_locals,
        params: method.params.len() as u32,
    })
}

/// The methods of a class, of flat instructions.
fn flat_class(alloc: Global, class: &LinkedClass) -> Result<FlatClass, Memory>
    ensures { IfOk result (λ f. IsFlatClass f (class_of class.now)) }
{
    let mut methods = List::new(alloc);
    for method in class.methods.as_slice() {
        methods.push(flat_method(alloc, method)?)?;
    }
    Ok(FlatClass { methods })
}

/// The program of flat instructions that stands for a linked program: one for each of its instructions.
///
/// # Errors
/// `Memory` only.
pub fn flatten(alloc: Global, linked: &Linked) -> Result<FlatProgram, Memory>
    ensures { IfOk result (λ f. IsFlatOf f linked.now) }
{
    let mut classes = List::new(alloc);
    for class in linked.classes() {
        classes.push(flat_class(alloc, class)?)?;
    }
    Ok(FlatProgram { classes })
}

/// The class of this number.
#[inline(always)]
fn class_at(flat: &FlatProgram, class: u32) -> Option<&FlatClass>
    ensures { option_map (λ c. c.now) result ≡ slice_get flat.now.classes.items class }
{
    flat.classes.as_slice().get(class as usize)
}

/// The method of this number in a class.
#[inline(always)]
fn method_in(class: &FlatClass, method: u32) -> Option<&FlatMethod>
    ensures { option_map (λ f. f.now) result ≡ slice_get class.now.methods.items method }
{
    class.methods.as_slice().get(method as usize)
}

/// The method of these numbers, where there is one.
#[inline(always)]
pub fn method_at(flat: &FlatProgram, class: u32, method: u32) -> Option<&FlatMethod>
    ensures stands { (p : Program) → IsFlatOf flat.now p → StandsFor (option_map (λ f. f.now) result) (model.method_at p class method) }
    ensures value { option_map (λ f. f.now) result ≡ flat_method_at flat.now class method }
{
    match class_at(flat, class) {
        Some(class) => method_in(class, method),
        None => None,
    }
}

/// The method of these numbers, which is there.
#[inline(always)]
pub fn method_there(flat: &FlatProgram, class: u32, method: u32) -> &FlatMethod
    requires { IsSome (flat_method_at flat.now class method) }
    ensures { Some result.now ≡ flat_method_at flat.now class method }
{
    let found = &flat.classes.as_slice()[class as usize];
    &found.methods.as_slice()[method as usize]
}
