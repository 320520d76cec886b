//! Class files of any compiler, of versions 45.0 to 69.0, read from their bytes (JVMS chapter 4).
//! A number of a constant is judged where it stands, by the tags of the constants as far as they can be laid out;
//! and a jump where it stands, by the instructions as far as they can be laid out.
#![tactic(auto)]

ghost use Rattle.jcf_tree.specs.Tree.{class_of};
ghost use Rattle.jcf_read.specs.Answer.{Gives};
ghost use Rattle.jcf_read.specs.Class.{class_in};

mod annotations;
mod attributes;
mod codes;
mod constants;
mod fault;
mod front;
mod jumps;
mod letters;
mod members;
mod pool;
mod whole;

pub use fault::{Fault, FaultKind, ReadError};
use jcf_tree::Class;
use std::alloc::Global;

/// The class that the bytes of a file spell.
///
/// # Errors
///
/// `Wrong` with the first thing that is wrong in them, from left to right, and `Memory` where memory runs out.
pub fn read_class(alloc: Global, bytes: &[u8]) -> Result<Class, ReadError>
    ensures { Gives class_of result (class_in bytes.now) }
{
    whole::class_in(alloc, bytes)
}
