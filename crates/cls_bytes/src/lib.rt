//! Class files: written to bytes, and read back.
//! Bytes spell one class at most, and what was written is read again.
#![tactic(auto)]

ghost use Rattle.std.specs.Prelude.{◌≡◌, ◌<◌, ◌^◌, ℕ, List, Some, None, length, option_map, if◌then◌else◌, IfOk};
ghost use Rattle.cls_tree.specs.Tree.{Class as Tree};
ghost use Rattle.cls_tree.specs.View.{class_of};
ghost use Rattle.cls_tree.specs.Layout.{class_bytes};
ghost use Rattle.cls_tree.specs.Fits.{Fits};
ghost use Rattle.cls_tree.specs.WellFormed.{IsWellFormed};
ghost use Rattle.cls_bytes.specs.File.{IsFile};
ghost use Rattle.cls_layout.specs.declared.ClassFault.{ClassFault as Fault};
ghost use Rattle.cls_layout.specs.Faults.{Fails};
ghost use Rattle.cls_bytes.specs.Naming.{class_names};
ghost use Rattle.cls_bytes.specs.Spelling.{ClassSpells, IsSpelled, IsTheirFault, IsFaultOrMemory};
ghost use Rattle.cls_bytes.specs.Answer.{IsClassOrMemory, IsFileOrMemory, IsWritten, writing};

mod naming;
mod reading;
mod texts;
mod writing;

use crate::naming::class_names;
use crate::reading::whole_class;
use crate::writing::class_written;
use cls_code::CodeFault;
pub use cls_layout::ClassFault;
use cls_layout::first_fault;
use cls_tree::Class;
use mg_read::ReadError;
use mg_text::{Bytes, Memory};
use std::alloc::Global;

/// Why a class isn't written.
#[derive(Clone, Copy)]
pub enum WriteFault {
    /// The first code that can't be encoded is refused so.
    Code(CodeFault),
    /// Want of memory.
    Memory,
}

impl From<Memory> for WriteFault {
    ghost use Rattle.std.specs.Prelude.{◌≡◌};
    ghost use Rattle.cls_bytes.specs.declared.WriteFault.TheVariants as E;

    ghost from_gives = { λ _ e. e ≡ E.Memory };

    fn from(_memory: Memory) -> WriteFault {
        WriteFault::Memory
    }
}

/// The bytes of a class file.
///
/// # Errors
///
/// `Code` exactly where a code of the methods can't be encoded, with what the first of them is refused by.
pub fn write_class(alloc: Global, class: &Class) -> Result<Bytes, WriteFault>
    requires { Fits (class_of class.now) }
    // The bytes, or what the first code that can't be encoded is refused by.
    ensures exact { IsWritten (writing (class_of class.now)) result }
    // A class file is written.
    ensures file { IsFile (class_of class.now) → IsFileOrMemory (class_bytes (class_of class.now)) result }
    // What is written of a well-formed class spells it.
    ensures spelled { IsWellFormed (class_of class.now) → IfOk result (λ b. ClassSpells b (class_of class.now)) }
{
    class_written(alloc, class)
}

/// The class that the bytes spell.
///
/// # Errors
///
/// The fault of the first field that is wrong, of those that stand from left to right as far as they can be laid out.
pub fn read_class(alloc: Global, bytes: &[u8]) -> Result<Class, ClassFault>
    // What is read is spelled so.
    ensures found { IfOk result (λ c. ClassSpells bytes.now (class_of c)) }
    // What is spelled so is read, unless memory runs out.
    ensures only { (class : Tree) → ClassSpells bytes.now class → IsClassOrMemory result class }
    // What is refused has that fault.
    ensures fault { IsTheirFault bytes.now result }
    // What has a fault is refused so, unless memory runs out.
    ensures exact { (fault : Fault) → Fails bytes.now fault → IsFaultOrMemory result fault }
{
    if bytes.len() > u32::MAX as usize {
        return Err(ClassFault::Memory);
    }
    if let Some(class) = spelled_class(alloc, bytes)? {
        return Ok(class);
    }
    refused(alloc, bytes)
}

/// The class that the bytes spell, where they spell one.
fn spelled_class(alloc: Global, bytes: &[u8]) -> Result<Option<Class>, Memory>
    ensures { IfOk result (λ found. IsSpelled bytes.now (option_map class_of found)) }
{
    match whole_class(alloc, bytes) {
        Ok(class) => Ok(if_named(class)),
        Err(ReadError::Memory) => Err(Memory),
        Err(ReadError::Syntax) => Ok(None),
    }
}

/// The class, where each of its numbers names what it needs.
fn if_named(class: Class) -> Option<Class>
    ensures { option_map class_of result ≡ (if class_names (class_of class) then Some (class_of class) else None) }
{
    if class_names(&class) {
        Some(class)
    } else {
        None
    }
}

/// Why bytes that spell no class are refused.
fn refused(alloc: Global, bytes: &[u8]) -> Result<Class, ClassFault>
    requires short { length bytes.now < 2 ^ 32 }
    requires none { (class : Tree) → ClassSpells bytes.now class → ⊥ }
    ensures found { IfOk result (λ c. ClassSpells bytes.now (class_of c)) }
    ensures only { (class : Tree) → ClassSpells bytes.now class → IsClassOrMemory result class }
    ensures fault { IsTheirFault bytes.now result }
    ensures exact { (fault : Fault) → Fails bytes.now fault → IsFaultOrMemory result fault }
{
    if let Some(fault) = first_fault(alloc, bytes)? {
        return Err(fault);
    }
    unreachable!()
}

/// Bytes spell one class at most.
pub fn one_class()
    ensures { (a b : Tree) → IsFile a → IsFile b → class_bytes a ≡ class_bytes b → a ≡ b }
{}
