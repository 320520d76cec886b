//! Whether the methods of a program are known to have typings before it runs.

ghost use Rattle.std.specs.Prelude.{IsTrue};
ghost use Rattle.cls_verify.specs.Typing.{AllTypable};

use cls_search::verify;
use std::alloc::Global;
use vm_model::{Linked, LinkedArgs, LinkedInstr, LinkedMethod};

// How much a program may have to be tried: what the search costs grows with the square of it, and a run that is longer than that is
// quicker without the tests. A program of which so much takes the search some hundredths of a second.
const MOST: usize = 2_500;

/// Whether each method of a program is known to have a typing. A program isn't tried that has more than is run of it at most, or much
/// in all; and where a search wants memory that isn't there nothing is known.
pub(crate) fn is_typed(alloc: Global, linked: &Linked, limit: u32) -> bool
    ensures { IsTrue result → AllTypable linked.now }
{
    if !is_small(linked, MOST.min(limit as usize)) {
        return false;
    }
    match verify(alloc, linked) {
        Ok(()) => true,
        Err(_fault) => false,
    }
}

// Whether a program has so much at most. No clause rests on it.
fn is_small(linked: &Linked, most: usize) -> bool {
    let mut left = most;
    for class in linked.classes() {
        match left_behind(class.methods.as_slice(), left) {
            Some(fewer) => left = fewer,
            None => return false,
        }
    }
    true
}

// How much of so much is left behind these methods, where they don't have more.
fn left_behind(methods: &[LinkedMethod], most: usize) -> Option<usize> {
    let mut left = most;
    for method in methods {
        let weight = weight_of(method);
        if weight > left {
            return None;
        }
        left -= weight;
    }
    Some(left)
}

// How much a method has: its parameters, its instructions, and the targets of its switches.
fn weight_of(method: &LinkedMethod) -> usize {
    let mut weight = method.params.as_slice().len();
    for instr in method.code.as_slice() {
        weight = weight.saturating_add(weight_of_instr(instr));
    }
    weight
}

// How much an instruction has: itself, and its targets where it is a switch.
fn weight_of_instr(instr: &LinkedInstr) -> usize {
    match &instr.args {
        LinkedArgs::Table { targets, .. } => targets.as_slice().len().saturating_add(1),
        _ => 1,
    }
}
