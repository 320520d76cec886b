//! What one file spells, by the reader of its kind.

ghost use Rattle.std.specs.Prelude.{◌↔◌, IsTrue, ℕ, List as Seq};
ghost use Rattle.scr_tree.specs.Local.{tree_of};
ghost use Rattle.mg_refusal.specs.Order.{Answers};
ghost use Rattle.mg_sources.specs.Files.{EndsWith, Kind, Scribble, Typestates, Java, IsOf, source_of};
ghost use Rattle.mg_sources.specs.Reading.{Protocol, Reads, Refuses};
ghost use Rattle.mg_sources.specs.Parts.{part_of};

use crate::faults::{stop_of_java, stop_of_protocol, stop_of_typestate};
use jv_read::read_java;
use jv_tree::File;
use mg_refusal::Stop;
use mg_text::Text;
use scr_read::{Local, read_local};
use std::alloc::Global;
use ts_read::read_typestate;
use ts_tree::Typestate;

/// What a file spells.
#[derive(Drop)]
pub enum Part {
    /// A local protocol.
    Protocol(Local),
    /// A typestate.
    States(Typestate),
    /// Classes and enums.
    Classes(File),
}

/// What one file spells, by the ending of its name.
///
/// # Errors
/// `Refused` with the file's fault; `Memory` where memory is wanted.
pub fn read_part(alloc: Global, number: u32, name: &Text, bytes: &[u8]) -> Result<Part, Stop>
    requires { (kind : Kind) × IsOf kind (source_of number name.now bytes.now) }
    ensures { Answers (λ part. Reads (source_of number name.now bytes.now) (part_of part)) (Refuses (source_of number name.now bytes.now))
        result }
{
    if ends_with(name, b".scr") {
        let local = read_protocol(alloc, number, bytes)?;
        return Ok(Part::Protocol(local));
    }
    if ends_with(name, b".protocol") {
        return read_states(alloc, number, bytes);
    }
    read_classes(alloc, number, bytes)
}

// Whether the name of a file ends so.
fn ends_with(name: &Text, suffix: &[u8]) -> bool
    ensures { IsTrue result ↔ EndsWith suffix.now name.now }
{
    name.as_str().as_bytes().ends_with(suffix)
}

/// The local protocol that one file spells.
///
/// # Errors
/// `Refused` with the file's fault; `Memory` where memory is wanted.
pub fn read_protocol(alloc: Global, number: u32, bytes: &[u8]) -> Result<Local, Stop>
    ensures { (name : Seq ℕ) → IsOf Scribble (source_of number name bytes.now)
        → Answers (λ local. Reads (source_of number name bytes.now) (Protocol (tree_of local)))
        (Refuses (source_of number name bytes.now)) result }
{
    match read_local(alloc, number, bytes) {
        Ok(local) => Ok(local),
        Err(fault) => Err(stop_of_protocol(fault).in_file(number)),
    }
}

// A typestate.
fn read_states(alloc: Global, number: u32, bytes: &[u8]) -> Result<Part, Stop>
    ensures { (name : Seq ℕ) → IsOf Typestates (source_of number name bytes.now)
        → Answers (λ part. Reads (source_of number name bytes.now) (part_of part)) (Refuses (source_of number name bytes.now)) result }
{
    match read_typestate(alloc, number, bytes) {
        Ok(typestate) => Ok(Part::States(typestate)),
        Err(fault) => Err(stop_of_typestate(fault).in_file(number)),
    }
}

// Classes and enums.
fn read_classes(alloc: Global, number: u32, bytes: &[u8]) -> Result<Part, Stop>
    ensures { (name : Seq ℕ) → IsOf Java (source_of number name bytes.now)
        → Answers (λ part. Reads (source_of number name bytes.now) (part_of part)) (Refuses (source_of number name bytes.now)) result }
{
    match read_java(alloc, number, bytes) {
        Ok(file) => Ok(Part::Classes(file)),
        Err(fault) => Err(stop_of_java(fault).in_file(number)),
    }
}
