//! Roles that take turns, each with its machine, over the lists of messages between them; and that each does what is
//! meant, on the messages that the others sent to it.
//! There is no running code here; each function carries a law, for every list of turns. The types
//! are those that definitions and code share.
#![tactic(auto)]

mod role;
mod stand;

ghost use Rattle.vm_world_law.specs.Laws.{BegunIsFresh, LongerListsDoNoHarm, OrderIsFree, RolesRunAlone, StepsDoOne, TurnsDeliver};
ghost use Rattle.vm_world_law.specs.Laws.{TurnsSwap};
ghost use Rattle.vm_world_law.specs.Turns.{OneRun, OrdersAgree, RestIsNoBound, RunsStop, StillRoundsRest, TurnsCount};
ghost use Rattle.vm_world_law.specs.Worlds.{WorldsAreMeant};

pub use role::{RoleEvent, RoleMain, Turned};
pub use stand::Stand;

/// A step looks at and changes the lists of its role alone: it looks at the front of one list to
/// it, or appends to one list from it, or does neither.
pub fn steps_do_one()
    ensures { StepsDoOne }
{}

/// A world that begins is before its first turn, with each role at the `main` of its class.
pub fn begun_is_fresh()
    ensures { BegunIsFresh }
{}

/// What a role took from another is a prefix of what that sent to it, and the list between them is
/// the rest.
pub fn turns_deliver()
    ensures { TurnsDeliver }
{}

/// A run of a role over some messages is one over longer lists.
pub fn longer_lists_do_no_harm()
    ensures { LongerListsDoNoHarm }
{}

/// A role did what its machine does alone, on lists that begin with what the others sent to it.
pub fn roles_run_alone()
    ensures { RolesRunAlone }
{}

/// Lists of turns after which the world rests come to the same, and what a role shows under any
/// turns is a prefix of what it shows there.
pub fn order_is_free()
    ensures { OrderIsFree }
{}

/// Runs in two orders that end at rest come to the same, and their roles stand alike.
pub fn orders_agree()
    ensures { OrdersAgree }
{}

/// Turns of two roles come to the same whichever is first, but where one waits for what the other
/// sends.
pub fn turns_swap()
    ensures { TurnsSwap }
{}

/// A turn finds its role still and changes nothing, or it counts one instruction.
pub fn turns_count()
    ensures { TurnsCount }
{}

/// In each order that names every role there is a run, and it is one; where as many turns in a row
/// as the order is long found their roles still, the world rests; and where it rests no role stands
/// at the bound.
pub fn one_run()
    ensures one { OneRun }
    ensures some { RunsStop }
    ensures still { StillRoundsRest }
    ensures rest { RestIsNoBound }
{}

/// Whatever turns were taken, each role whose machine alone does what is meant did so among the
/// others: where it ended so does the meaning, where it waits the meaning waits, and what it has
/// shown so far is meant.
pub fn worlds_are_meant()
    ensures { WorldsAreMeant }
{}
