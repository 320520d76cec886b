//! The files of a global protocol's roles, or their local protocols, or the first refusal of a file
//! without them.

ghost use Rattle.std.specs.Prelude.{◌≡◌, [], ◌∷◌, ◌++◌, codes, length, List as Seq, ℕ, IfOk, OnOk, map, option_map};
ghost use Rattle.scr_tree.specs.Tree.{LocalTree};
ghost use Rattle.scr_tree.specs.Local.{tree_of as local_of};
ghost use Rattle.scr_global_tree.specs.Tree.{GlobalTree};
ghost use Rattle.scr_global_tree.specs.Global.{tree_of};
ghost use Rattle.scr_read.specs.Outcome.{fault_answer as scr_answer};
ghost use Rattle.scr_global_read.specs.Outcome.{fault_answer as global_answer};
ghost use Rattle.scr_project.specs.Outcome as projects;
ghost use Rattle.mg_refusal.specs.Refusals.{Refusal as Told};
ghost use Rattle.mg_refusal.specs.Order.{Answers, AnswersOnly, IsStopOf, IsStopBy};
ghost use Rattle.mg_sources.specs.Files.{source_of, sources};
ghost use Rattle.mg_projected.specs.Projected.{fault_answer};
ghost use Rattle.mg_projected.specs.Told.{IsSaidOfGlobal, AreWritten, AreLocals, FirstRefusal};
ghost use Rattle.mg_projected.specs.inner.Saying.{IsToldOfProjection, IsTold, written_alone};
ghost use Rattle.mg_projected.specs.declared.files.RoleFile.{RoleFile as File};

use crate::fault::ProjectedFault;
use crate::files::{RoleFile, projected};
use crate::locals::{Locals, found_in};
use mg_refusal::Stop;
use mg_sources::{stop_of_condition, stop_of_protocol};
use mg_text::{Bytes, List, Memory, Place, Text};
use scr_global_read::GlobalFault;
use scr_project::ProjectFault;
use scr_read::ScrFault;
use std::alloc::Global;

/// The files of the roles of the global protocol that the one file spells, in the order of the
/// header.
///
/// # Errors
/// `Refused` with the fault of the file, or with the first role that has no local protocol; `Memory`
/// where memory is wanted.
pub fn project(alloc: Global, contents: &[Bytes]) -> Result<List<RoleFile>, Stop>
    requires one { length contents.now ≡ 1 }
    // Whatever the file is called, what is answered are the files of the roles, or the first refusal.
    ensures answered { (names : Seq (Seq ℕ)) → length names ≡ 1 →
        Answers (λ files. AreWritten (sources names contents.now) files.items) (FirstRefusal (sources names contents.now)) result }
    // The files of the roles are answered, unless memory runs out.
    ensures only { (names : Seq (Seq ℕ)) → length names ≡ 1 → (written : Seq File) →
        AreWritten (sources names contents.now) written → AnswersOnly (λ files. files.items ≡ written) result }
    // Of a file that is refused nothing is written.
    ensures refused { (names : Seq (Seq ℕ)) → length names ≡ 1 → (r : Told) → FirstRefusal (sources names contents.now) r → OnOk result ⊥ }
{
    written_of(alloc, contents[0].as_slice())
}

/// The global protocol that the bytes of the file of this number spell, with the local protocols of
/// its roles in the order of the header.
///
/// # Errors
/// Those of `project`, with places in the file of this number.
pub fn project_locals(alloc: Global, file: u32, bytes: &[u8]) -> Result<Locals, Stop>
    // Whatever the file is called, what is answered are the local protocols of the roles, or the first refusal.
    ensures answered { (name : Seq ℕ) →
        Answers (λ l. AreLocals (source_of file name bytes.now) (tree_of l.global) (map local_of l.locals.items))
        (FirstRefusal (source_of file name bytes.now ∷ [])) result }
    // The local protocols of the roles are answered, unless memory runs out.
    ensures only { (name : Seq ℕ) (g : GlobalTree) (locals : Seq LocalTree) → AreLocals (source_of file name bytes.now) g locals →
        AnswersOnly (λ l. (tree_of l.global ≡ g) × (map local_of l.locals.items ≡ locals)) result }
    // Of a file that is refused nothing is answered.
    ensures refused { (name : Seq ℕ) (r : Told) → FirstRefusal (source_of file name bytes.now ∷ []) r → OnOk result ⊥ }
{
    locals_told(alloc, file, bytes)
}

// The same, without what follows from its being one answer.
fn locals_told(alloc: Global, file: u32, bytes: &[u8]) -> Result<Locals, Stop>
    ensures { (name : Seq ℕ) → Answers (λ l. AreLocals (source_of file name bytes.now) (tree_of l.global) (map local_of l.locals.items))
        (FirstRefusal (source_of file name bytes.now ∷ [])) result }
{
    match found_in(alloc, file, bytes) {
        Ok(found) => Ok(found),
        Err(fault) => Err(stop_of(alloc, fault).in_file(file)),
    }
}

// The files of the bytes of the file, without what follows from their being one answer.
fn written_of(alloc: Global, bytes: &[u8]) -> Result<List<RoleFile>, Stop>
    ensures { (name : Seq ℕ) → Answers (λ files. AreWritten (written_alone name bytes.now) files.items)
        (FirstRefusal (written_alone name bytes.now)) result }
{
    match projected(alloc, 0, bytes) {
        Ok(files) => Ok(files),
        Err(fault) => Err(stop_of(alloc, fault).in_file(0)),
    }
}

// The refusal by a fault. Want of memory stays that.
fn stop_of(alloc: Global, fault: ProjectedFault) -> Stop
    ensures { IsStopBy IsTold (fault_answer fault) result }
{
    match fault {
        ProjectedFault::Unread(fault) => stop_of_global(fault),
        ProjectedFault::Unprojected(fault) => stop_of_projection(alloc, fault),
        ProjectedFault::Memory => Stop::Memory,
    }
}

// The refusal of a file of a global protocol.
fn stop_of_global(fault: GlobalFault) -> Stop
    ensures { IsStopOf IsSaidOfGlobal (global_answer fault) result }
{
    match fault {
        GlobalFault::TooLarge { place } => Stop::at("TooLarge", place),
        GlobalFault::BadByte { place } => Stop::at("BadByte", place),
        GlobalFault::Unsupported { place, name } => Stop::named("Unsupported", place, name),
        GlobalFault::Syntax { place } => Stop::at("Syntax", place),
        GlobalFault::Unmet {
            condition,
            place,
            name,
        } => stop_of_condition(condition, place, name),
        GlobalFault::Memory => Stop::Memory,
    }
}

// The refusal by a role that has no local protocol.
fn stop_of_projection(alloc: Global, fault: ProjectFault) -> Stop
    ensures { IsStopBy IsToldOfProjection (projects.fault_answer fault) result }
{
    match fault {
        ProjectFault::NotMergeable { place, name } => Stop::named("NotMergeable", place, name),
        ProjectFault::Unprojected { place, name, fault } => {
            stop_of_unmet(alloc, place, &name, fault)
        }
        ProjectFault::Memory => Stop::Memory,
    }
}

// The refusal by a role that does what is no local protocol: behind its name stands the kind of the
// fault.
fn stop_of_unmet(alloc: Global, place: Place, role: &Text, fault: ScrFault) -> Stop
    ensures { IsStopBy IsToldOfProjection (option_map (projects.Unprojected place role.now) (scr_answer fault)) result }
{
    let inner = match stop_of_protocol(fault) {
        Stop::Refused(inner) => inner,
        Stop::Memory => return Stop::Memory,
    };
    match role_words(alloc, role, inner.kind()) {
        Ok(words) => Stop::named("Unprojected", place, words),
        Err(Memory) => Stop::Memory,
    }
}

// A role, and behind it a word.
fn role_words(alloc: Global, role: &Text, word: &str) -> Result<Text, Memory>
    ensures { IfOk result (λ t. t ≡ role.now ++ codes " " ++ word.now) }
{
    let text = format!(in alloc; "{} {word}", role.as_str())?;
    Ok(Text::from_string(text))
}
