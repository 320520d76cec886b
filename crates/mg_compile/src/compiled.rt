//! From the files of a command to its class files.

ghost use Rattle.std.specs.Prelude.{◌≡◌, ◌<◌, ◌^◌, List as Seq, length, OnOk};
ghost use Rattle.mg_sources.specs.Files.{HaveKinds, sources};
ghost use Rattle.mg_compile.specs.declared.files.ClassFile.{ClassFile as Written};
ghost use Rattle.mg_refusal.specs.Refusals.{Refusal};
ghost use Rattle.mg_refusal.specs.Order.{Answers, AnswersOnly};
ghost use Rattle.mg_compile.specs.Compiled.{AreCompiled, FirstRefusal};

use crate::files::{ClassFile, class_files};
use mg_accepted::accept;
use mg_refusal::Stop;
use mg_text::{Bytes, List, Text};
use std::alloc::Global;

/// The class files of the program that these files are, one for each class, in the order of the
/// Java files: a local protocol stands for its API, the class first and then the enums, which have
/// no class file.
///
/// # Errors
/// `Refused` with the first refusal of the program; else with the first size that is too large in a
/// class file, at the name of the method, or of the class where it isn't a written method's. `Memory` where memory is wanted.
pub fn compile(alloc: Global, names: &[Text], contents: &[Bytes]) -> Result<List<ClassFile>, Stop>
    requires same { length names.now ≡ length contents.now }
    requires count { length contents.now < 2 ^ 32 }
    requires kinds { HaveKinds names.now }
    // What is answered are the class files of the program, or the first refusal.
    ensures answered { Answers (λ written. AreCompiled (sources names.now contents.now) written.items)
        (FirstRefusal (sources names.now contents.now)) result }
    // Files that are compiled to these class files are answered by them, unless memory runs out.
    ensures only { (written : Seq Written) → AreCompiled (sources names.now contents.now) written →
        AnswersOnly (λ files. files.items ≡ written) result }
    // Files that are refused aren't compiled.
    ensures refused { (r : Refusal) → FirstRefusal (sources names.now contents.now) r → OnOk result ⊥ }
{
    compiled(alloc, names, contents)
}

// The same, without what follows from its being one answer.
fn compiled(alloc: Global, names: &[Text], contents: &[Bytes]) -> Result<List<ClassFile>, Stop>
    requires same { length names.now ≡ length contents.now }
    requires count { length contents.now < 2 ^ 32 }
    requires kinds { HaveKinds names.now }
    ensures { Answers (λ written. AreCompiled (sources names.now contents.now) written.items)
        (FirstRefusal (sources names.now contents.now)) result }
{
    let program = accept(alloc, names, contents)?;
    let files = class_files(alloc, &program.core);
    drop(program);
    files
}
