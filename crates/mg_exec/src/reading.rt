//! The class files that bytes spell, one after the other, and the program that they link to.

ghost use Rattle.std.specs.Prelude.{◌≡◌, ◌<◌, ◌^◌, ℕ, List as Seq, Some, length, map};
ghost use Rattle.mg_read.specs.First.{Judged};
ghost use Rattle.cls_tree.specs.View.{class_of as file_of};
ghost use Rattle.vm_model.specs.Links.{IsUnlinked, Links};
ghost use Rattle.mg_refusal.specs.Order.{Finds, Answers};
ghost use Rattle.mg_sources.specs.Files.{source_of, sources};
ghost use Rattle.mg_exec.specs.Files.{IsFile, AreFiles, Refuses};
ghost use Rattle.mg_exec.specs.Runs.{flaw_refusal};

use crate::faults::{stop_of_class, stop_of_load};
use cls_bytes::read_class;
use cls_tree::Class;
use mg_refusal::{Refusal, Stop};
use mg_text::{Bytes, List};
use std::alloc::Global;
use vm_load::load;
use vm_model::Linked;

// The most bytes of a class file.
const MOST_BYTES: usize = 16_777_216;

/// The class files that these bytes spell.
///
/// # Errors
/// `Refused` with the first file that is too large or has a fault; `Memory` where memory is wanted.
pub(crate) fn read_all(alloc: Global, contents: &[Bytes]) -> Result<List<Class>, Stop>
    requires { length contents.now < 2 ^ 32 }
    ensures { (names : Seq (Seq ℕ)) → length names ≡ length contents.now →
        Answers (λ classes. AreFiles (sources names contents.now) (map file_of classes.items))
        (λ r. Judged Refuses (sources names contents.now) (Some r)) result }
{
    let mut classes = List::new(alloc);
    for (number, bytes) in contents.iter().enumerate() {
        let class = read_one(alloc, number as u32, bytes.as_slice())?;
        classes.push(class)?;
    }
    Ok(classes)
}

// The class file that the bytes of the file of this number spell.
fn read_one(alloc: Global, number: u32, bytes: &[u8]) -> Result<Class, Stop>
    ensures { (name : Seq ℕ) → Answers (λ class. IsFile (source_of number name bytes.now) (file_of class))
        (Refuses (source_of number name bytes.now)) result }
{
    if bytes.len() > MOST_BYTES {
        return Err(Stop::Refused(Refusal::in_bytes("TooLarge", number, 0)));
    }
    match read_class(alloc, bytes) {
        Ok(class) => Ok(class),
        Err(fault) => Err(stop_of_class(number, fault)),
    }
}

/// The program that class files link to.
///
/// # Errors
/// `Refused` with the first flaw of the lowest number; `Memory` where memory is wanted.
pub(crate) fn link(alloc: Global, classes: &[Class]) -> Result<Linked, Stop>
    ensures { Answers (Links (map file_of classes.now))
        (Finds (IsUnlinked (map file_of classes.now)) flaw_refusal) result }
{
    match load(alloc, classes) {
        Ok(linked) => Ok(linked),
        Err(fault) => Err(stop_of_load(fault)),
    }
}
