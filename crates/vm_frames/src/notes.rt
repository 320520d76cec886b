//! Which text each instruction pushed, so that it need not be made again.
//! A note is a guess: the text is compared before its number is used, and no clause rests on notes.

use mg_text::Memory;
use std::alloc::Global;
use vm_model::{Linked, LinkedClass, LinkedMethod};

/// What stands where nothing was noted: no text has this number.
const NOTHING: u32 = 0xffff_ffff;

/// Numbers of texts, by the classes of a program, their methods and the places of these.
#[derive(Drop)]
pub(crate) struct Notes {
    numbers: Vec<Vec<Vec<u32>>>,
}

/// No notes of a method.
fn of_method(alloc: Global, method: &LinkedMethod) -> Result<Vec<u32>, Memory> {
    let mut places = Vec::new(alloc);
    for _instr in method.code.as_slice() {
        places.push(NOTHING)?;
    }
    Ok(places)
}

/// No notes of a class.
fn of_class(alloc: Global, class: &LinkedClass) -> Result<Vec<Vec<u32>>, Memory> {
    let mut methods = Vec::new(alloc);
    for method in class.methods.as_slice() {
        methods.push(of_method(alloc, method)?)?;
    }
    Ok(methods)
}

impl Notes {
    /// No notes of a program.
    ///
    /// # Errors
    /// `Memory` only.
    pub(crate) fn new(alloc: Global, linked: &Linked) -> Result<Notes, Memory> {
        let mut numbers = Vec::new(alloc);
        for class in linked.classes() {
            numbers.push(of_class(alloc, class)?)?;
        }
        Ok(Notes { numbers })
    }

    /// What is noted of a place.
    #[inline(always)]
    pub(crate) fn at(&self, class: u32, method: u32, place: u32) -> Option<u32> {
        let methods = self.numbers.get(class as usize)?;
        let places = methods.get(method as usize)?;
        places.get(place as usize).copied()
    }

    /// Notes a number at a place.
    pub(crate) fn put(&mut self, class: u32, method: u32, place: u32, number: u32) {
        let Some(methods) = self.numbers.get_mut(class as usize) else {
            return;
        };
        let Some(places) = methods.get_mut(method as usize) else {
            return;
        };
        if let Some(noted) = places.get_mut(place as usize) {
            *noted = number;
        }
    }
}
