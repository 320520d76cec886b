//! The program that files are: the Java files and typestates that they stand for.
//! A local protocol stands for its API and its typestate.

ghost use Rattle.std.specs.Prelude.{◌≡◌, [], ◌∷◌, ◌++◌, ◌<◌, ◌^◌, length, map, IfOk, OnOk};
ghost use Rattle.scr_tree.specs.Local.{tree_of};
ghost use Rattle.jv_tree.specs.View.{file_of};
ghost use Rattle.stm_api.specs.View.{written_of};
ghost use Rattle.mg_sources.specs.Files.{HaveKinds, sources};
ghost use Rattle.mg_sources.specs.Reading.{Protocol};
ghost use Rattle.mg_refusal.specs.Refusals.{Refusal};
ghost use Rattle.mg_refusal.specs.Order.{Answers, AnswersOnly};
ghost use Rattle.mg_sources.specs.Sources.{Sourced, AreProgram, FirstRefusal};
ghost use Rattle.mg_sources.specs.View.{sourced_of};
ghost use Rattle.mg_sources.specs.Parts.{part_of};
ghost use Rattle.mg_sources.specs.inner.Answers.{Make, Appends};

use crate::part::Part;
use crate::parts::{check_roles, read_parts};
use jv_tree::File;
use mg_refusal::Stop;
use mg_text::{Bytes, List, Memory, Text};
use scr_read::Local;
use std::alloc::Global;
use stm_api::{ApiFile, api};
use stm_gen::generate;
use ts_tree::Typestate;

/// The Java files of a program and its typestates, in the order of the words, and the number of
/// the file of each typestate.
pub struct Sources {
    pub files: List<File>,
    pub typestates: List<Typestate>,
    pub origins: List<u32>,
}

// One call lets go of it, wherever a function ends.
impl Drop for Sources {
    fn drop(self) {
        let Sources {
            files: _,
            typestates: _,
            origins: _,
        } = self;
    }
}

/// The program that these files are, by the endings of their names and by what they hold.
///
/// # Errors
/// `Refused` with the fault of the first file in the order of the words that its reader refuses;
/// else with the first protocol of a role that an earlier one is of, `SameRole`.
/// `Memory` where memory is wanted.
pub fn read_program(alloc: Global, names: &[Text], contents: &[Bytes]) -> Result<Sources, Stop>
    requires same { length names.now ≡ length contents.now }
    requires count { length contents.now < 2 ^ 32 }
    requires kinds { HaveKinds names.now }
    // What is answered is the program that the files are, or their first refusal.
    ensures answered { Answers (λ s. AreProgram (sources names.now contents.now) (sourced_of s))
        (FirstRefusal (sources names.now contents.now)) result }
    // The program that the files are is answered, unless memory runs out.
    ensures only { (s : Sourced) → AreProgram (sources names.now contents.now) s → AnswersOnly (λ k. sourced_of k ≡ s) result }
    // Files that are refused are no program.
    ensures refused { (r : Refusal) → FirstRefusal (sources names.now contents.now) r → OnOk result ⊥ }
{
    program_of(alloc, names, contents)
}

// The same, without what follows from its being one answer.
fn program_of(alloc: Global, names: &[Text], contents: &[Bytes]) -> Result<Sources, Stop>
    requires same { length names.now ≡ length contents.now }
    requires count { length contents.now < 2 ^ 32 }
    requires kinds { HaveKinds names.now }
    ensures { Answers (λ s. AreProgram (sources names.now contents.now) (sourced_of s)) (FirstRefusal (sources names.now contents.now))
        result }
{
    let parts = read_parts(alloc, names, contents)?;
    check_roles(alloc, parts.as_slice())?;
    Ok(assemble(alloc, parts)?)
}

// What these parts stand for.
fn assemble(alloc: Global, parts: List<Part>) -> Result<Sources, Memory>
    requires { length parts.items < 2 ^ 32 }
    ensures { IfOk result (λ s. Make 0 (map part_of parts.items) (sourced_of s)) }
{
    let mut sources = Sources {
        files: List::new(alloc),
        typestates: List::new(alloc),
        origins: List::new(alloc),
    };
    let mut number: u32 = 0;
    for part in parts.into_vec() {
        add_part(alloc, number, part, &mut sources)?;
        number += 1;
    }
    Ok(sources)
}

// Appends what the part of a file of this number stands for.
fn add_part(alloc: Global, number: u32, part: Part, sources: &mut Sources) -> Result<(), Memory>
    ensures { OnOk result (Appends number (part_of part) (sourced_of sources.old) (sourced_of sources.new)) }
{
    match part {
        Part::Protocol(local) => add_protocol(alloc, number, &local, sources),
        Part::States(typestate) => add_typestate(number, typestate, sources),
        Part::Classes(file) => sources.files.push(file),
    }
}

// Appends a typestate of the file of this number.
fn add_typestate(number: u32, typestate: Typestate, sources: &mut Sources) -> Result<(), Memory>
    ensures files { OnOk result (sources.new.files ≡ sources.old.files) }
    ensures typestates { OnOk result (sources.new.typestates.items ≡ sources.old.typestates.items ++ typestate ∷ []) }
    ensures origins { OnOk result (sources.new.origins.items ≡ sources.old.origins.items ++ number ∷ []) }
{
    sources.typestates.push(typestate)?;
    sources.origins.push(number)
}

// Appends the API of a protocol and its typestate.
fn add_protocol(
    alloc: Global,
    number: u32,
    local: &Local,
    sources: &mut Sources,
) -> Result<(), Memory>
    ensures { OnOk result (Appends number (Protocol (tree_of local.now)) (sourced_of sources.old) (sourced_of sources.new)) }
{
    let typestate = generate(alloc, local)?;
    let files = api(alloc, local)?;
    add_files(files, &mut sources.files)?;
    add_typestate(number, typestate, sources)
}

// Appends the trees of the files of an API.
fn add_files(api: List<ApiFile>, files: &mut List<File>) -> Result<(), Memory>
    ensures { OnOk result (map file_of files.new.items ≡ map file_of files.old.items ++ map (λ f. f.tree) (map written_of api.items)) }
{
    for file in api.into_vec() {
        files.push(file.tree)?;
    }
    Ok(())
}
