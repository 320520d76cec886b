//! What typings promise of the commands that write class files and that run them.
//! There is no running code here; each function carries laws.
#![tactic(auto)]

ghost use Rattle.mg_typed_law.specs.Laws.{CompiledClassesAreTypable, RunsAreTypable, TypableRunsNeverBad};

use gen_held::written_cores_are_held;
use gen_sound::code_is_typable;
use jv_names::core_is_kept;
use jv_resolve_law::spelled_is_shaped;
use mg_runs::written_classes_link;
use world_typed_law::typable_worlds_never_bad;

/// The bytes of the class files that are written of accepted files are read back and link to a
/// program each of whose methods has a typing, also that which roles of such files run.
pub fn written_classes_are_typable()
    ensures compiled { CompiledClassesAreTypable }
    ensures ran { RunsAreTypable }
{
    spelled_is_shaped();
    core_is_kept();
    written_cores_are_held();
    written_classes_link();
    code_is_typable();
}

/// Where class files from outside link to a program each of whose methods has a typing, no role of
/// their run ends because its code is wrong, nor does one, whatever turns are taken.
pub fn typable_runs_never_bad()
    ensures { TypableRunsNeverBad }
{
    typable_worlds_never_bad();
}
