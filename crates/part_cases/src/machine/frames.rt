//! Programs whose `main` has bounds and a code. They are class files, read and linked.

ghost use Rattle.std.specs.Prelude.{◌<◌, length};

use crate::machine::classes::read;
use crate::machine::running::tell_class;
use crate::machine::spelling::{bytes_of, joined, number_of};
use crate::machine::unanswered::Unanswered;
use cases::Answer;
use mg_text::Memory;
use std::alloc::{AllocError, Global};

/// The most steps that are taken.
const STEPS: u32 = 1000;

/// Tells what `main` does. The first line of a case are its bounds, and the second is its code.
pub fn tell(
    alloc: Global,
    answer: &mut Answer,
    front: &[u8],
    given: &str,
) -> Result<(), Unanswered> {
    let (bounds, code) = given.split_once('\n').ok_or(Unanswered::Form)?;
    let bounds = bounds_of(bounds).ok_or(Unanswered::Form)?;
    let code = bytes_of(alloc, code)?;
    if code.len() > 199 {
        return Err(Unanswered::Form);
    }
    let bytes = spelled(alloc, front, bounds, code.as_slice())?;
    tell_run(alloc, answer, bytes.as_slice())?;
    Ok(())
}

fn tell_run(alloc: Global, answer: &mut Answer, bytes: &[u8]) -> Result<(), Memory> {
    match read(alloc, bytes) {
        Ok(class) => tell_class(alloc, answer, class, STEPS),
        Err(fault) => {
            answer.tell(&fault);
            Ok(())
        }
    }
}

/// How many operands and how many locals a method has.
#[derive(Clone, Copy)]
struct Bounds {
    operands: u8,
    locals: u8,
}

// The bounds of a line `2 operands, 1 locals`.
fn bounds_of(line: &str) -> Option<Bounds> {
    let (operands, locals) = line.split_once(" operands, ")?;
    let locals = locals.strip_suffix(" locals")?;
    Some(Bounds {
        operands: number_of(operands)?,
        locals: number_of(locals)?,
    })
}

// The bytes of the class whose `main` has these bounds and this code.
fn spelled(alloc: Global, front: &[u8], bounds: Bounds, code: &[u8]) -> Result<Vec<u8>, AllocError>
    requires { length code.now < 200 }
{
    let len = code.len() as u8;
    let (operands, locals) = (bounds.operands, bounds.locals);
    let head = [
        0,
        5,
        0,
        0,
        0,
        12 + len,
        0,
        operands,
        0,
        locals,
        0,
        0,
        0,
        len,
    ];
    joined(alloc, &[front, &head, code, &[0; 6]])
}
