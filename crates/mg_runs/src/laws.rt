//! What holds of the class files of sources, also of those whose usages aren't right.
//! There is no running code here; each function carries a law.

ghost use Rattle.mg_runs.specs.Laws.{AllProtocolsAgree, CoursesAreRuns, EachOrderHasACourse, LoadedClassesAreTypable, RolesAreMeant, RolesFit, RolesKeep, RolesPlay, RunsAreMeant, WrittenClassesLink};

use gen_held::written_cores_are_held;
use gen_links::files_link;
use gen_sound::{code_is_typable, mains_run_as_meant};
use jv_names::{core_is_kept, types_are_enough};
use jv_resolve_law::spelled_is_shaped;
use mg_accepted_law::{accepted_keep_typestates, accepted_objects_play};
use mg_fits::roles_that_fit;
use vm_world_law::{begun_is_fresh, one_run, turns_deliver, worlds_are_meant};

/// The bytes of the class files that are written of the core of some files are read back, and what
/// is read links to the program that is expected of the core.
pub fn written_classes_link()
    ensures { WrittenClassesLink }
{
    spelled_is_shaped();
    core_is_kept();
    written_cores_are_held();
    files_link();
}

/// Whatever the bytes of these class files are read as and link to, each method of the program has
/// a typing.
pub fn loaded_classes_are_typable()
    ensures { LoadedClassesAreTypable }
{
    spelled_is_shaped();
    core_is_kept();
    written_cores_are_held();
    files_link();
    code_is_typable();
}

/// Where a class of the core has a `main`, the linked program has it, and the machine that starts
/// there does what the class means in the sources, for all messages that the other roles sent.
pub fn runs_are_meant()
    ensures { RunsAreMeant }
{
    spelled_is_shaped();
    core_is_kept();
    written_cores_are_held();
    files_link();
    mains_run_as_meant();
    types_are_enough();
}

/// Whatever roles run these classes, the machine of each does what is meant, and after every list
/// of turns each did what is meant on the messages that were sent to it: where it ended so does the
/// meaning, where it waits the meaning waits, and what it has shown so far is meant. What a role
/// took from another is a prefix of what that sent to it.
pub fn roles_are_meant()
    ensures { RolesAreMeant }
{
    runs_are_meant();
    begun_is_fresh();
    turns_deliver();
    worlds_are_meant();
}

/// Roles of accepted files keep to the typestates, at each moment at which they did what is meant: no
/// null was dereferenced, the calls of each object are a path of its class's typestate, and a role
/// that returned has left every object at its end or at a state marked drop.
pub fn roles_keep()
    ensures { RolesKeep }
{
    accepted_keep_typestates();
}

/// In roles of accepted files that do what is meant, also whatever turns follow, each object of the
/// class that is generated of a protocol does what the protocol says: its acts are steps of the
/// protocol, one for each call, in order, and at most one for a call that is still open; or the open
/// call looked at a label of no branch, and the role shows nothing more.
pub fn roles_play()
    ensures { RolesPlay }
{
    accepted_objects_play();
}

/// Roles of accepted files that fit a global protocol, and do what is meant after every list of turns,
/// don't get stuck on one another: at each moment each goes on, has returned or has ended by a zero
/// divisor, and a run that ends by no zero divisor ends with a complete conversation of the global
/// protocol.
pub fn roles_fit()
    ensures { RolesFit }
{
    roles_that_fit();
}

/// The typestate of each protocol that a file spells allows exactly the protocol's traces.
pub fn protocols_agree()
    ensures { AllProtocolsAgree }
{}

/// All that is promised of a run holds of each course of these files and roles, in whatever order
/// they take turns and up to whatever limit.
pub fn courses_are_runs()
    ensures { CoursesAreRuns }
{
    roles_are_meant();
    roles_keep();
    roles_play();
    roles_fit();
    protocols_agree();
}

/// Accepted files whose class files can be written have a course in each order of turns that names
/// every role.
pub fn each_order_has_a_course()
    ensures { EachOrderHasACourse }
{
    written_classes_link();
    runs_are_meant();
    one_run();
}
