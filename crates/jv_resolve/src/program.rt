//! Whole programs.
//! Contracts see programs and cores as trees.

ghost use Rattle.std.specs.Prelude.{◌≡◌, ◌≢◌, Some, None, IfOk, OnOk};
ghost use Rattle.jv_rules.specs.Faults.{IsWellTyped};
ghost use Rattle.jv_rules.specs.Program.{Program};
ghost use Rattle.jv_rules.specs.Shape.{IsShaped};
ghost use Rattle.jv_names.specs.Resolves.{AreBounded, Resolves};
ghost use Rattle.jv_types.specs.Tables.{program_in};
ghost use Rattle.jv_resolve_law.specs.Members.{resolving};
ghost use Rattle.jv_resolve_law.specs.Targets.{OnlyVariablesAreAssigned};
ghost use Rattle.jv_resolve.specs.inner.Gives.{Gives};
ghost use Rattle.jv_resolve.specs.inner.HeadedSeen.{heads_seen};
ghost use Rattle.jv_resolve.specs.inner.Parts.{parts_seen};
ghost use Rattle.jv_resolve.specs.inner.Seen.{tables_seen};
ghost use Rattle.jv_resolve.specs.inner.Wholes.{headed, core_in};

use crate::bounds::{bound_enums, bound_methods};
use crate::classes::{resolve_classes, resolve_enums};
use crate::given::Unresolved;
use crate::methods::resolve_methods;
use jv_core::{Core, CoreClass, CoreEnum, CoreMethod};
use jv_names::core_is_kept;
use jv_resolve_law::{resolving_is_right, resolving_is_total};
use jv_types::Table;
use mg_text::{List, Memory, Names};
use std::alloc::Global;
use ts_tree::Typestate;

/// The parts of a core.
#[derive(Drop)]
pub(crate) struct Parts {
    pub classes: List<CoreClass>,
    pub enums: List<CoreEnum>,
    pub methods: List<CoreMethod>,
    pub typestates: List<Typestate>,
    pub names: Names,
}

// Equal typestates.
fn copies_of(alloc: Global, typestates: &[Typestate]) -> Result<List<Typestate>, Memory>
    ensures { IfOk result (λ l. l.items ≡ typestates.now) }
{
    let mut copies = List::new(alloc);
    for typestate in typestates {
        let copy = typestate.copy(alloc)?;
        copies.push(copy)?;
    }
    Ok(copies)
}

// The enums and classes of a core, and the names that have numbers by then.
#[derive(Drop)]
struct Heads {
    enums: List<CoreEnum>,
    classes: List<CoreClass>,
    names: Names,
}

// The enums and classes of a program in tables.
fn resolve_heads(alloc: Global, table: &Table<'_>) -> Result<Heads, Unresolved>
    ensures { Gives heads_seen result (headed (tables_seen table.now)) }
{
    let mut names = Names::new(alloc);
    let enums = resolve_enums(alloc, &mut names, table.enums())?;
    let classes = resolve_classes(alloc, table, &mut names, table.classes())?;
    Ok(Heads {
        enums,
        classes,
        names,
    })
}

// The parts of the core of a program in tables, however many they are.
fn resolve_parts(alloc: Global, table: &Table<'_>) -> Result<Parts, Unresolved>
    ensures { Gives parts_seen result (core_in (tables_seen table.now) (program_in table.now).typestates) }
{
    let typestates = copies_of(alloc, table.typestates())?;
    let heads = resolve_heads(alloc, table)?;
    let resolved = resolve_methods(alloc, table, heads.names, table.classes())?;
    Ok(Parts {
        classes: heads.classes,
        enums: heads.enums,
        methods: resolved.methods,
        typestates,
        names: resolved.names,
    })
}

// The parts of a core are few enough.
fn bound_parts(parts: &Parts) -> Result<(), Memory>
    ensures { OnOk result ((p : Program) → AreBounded p (parts_seen parts.now)) }
{
    bound_enums(parts.enums.as_slice())?;
    bound_methods(parts.classes.as_slice(), parts.methods.as_slice())?;
    Ok(())
}

// The parts of the core of a program that has one.
fn parts_of(alloc: Global, table: &Table<'_>) -> Result<Parts, Unresolved>
    requires { resolving (program_in table.now) ≢ None }
    ensures resolved { Gives parts_seen result (resolving (program_in table.now)) }
    ensures bounded { IfOk result (λ p. AreBounded (program_in table.now) (parts_seen p)) }
{
    let parts = resolve_parts(alloc, table)?;
    bound_parts(&parts)?;
    Ok(parts)
}

/// The core of a well typed program, whose trees are as the grammar has them: it stands for the
/// program, construct by construct. A program has one core, that of `jv_resolve_law`.
///
/// # Errors
/// `Memory` only: where it is wanting, or where an enum, a method or the program as a whole has
/// more parts than a core can number.
pub fn resolve(alloc: Global, table: &Table<'_>) -> Result<Core, Memory>
    requires well_typed { IsWellTyped (program_in table.now) }
    requires shaped { IsShaped (program_in table.now) }
    requires assigns { OnlyVariablesAreAssigned (program_in table.now) }
    ensures stands { IfOk result (Resolves (program_in table.now)) }
    ensures resolved { IfOk result (λ c. resolving (program_in table.now) ≡ Some c) }
{
    resolving_is_total();
    resolving_is_right();
    core_is_kept();
    match parts_of(alloc, table) {
        Ok(parts) => Ok(Core::new(
            parts.classes,
            parts.enums,
            parts.methods,
            parts.typestates,
            parts.names,
        )),
        Err(Unresolved::Memory) => Err(Memory),
        Err(Unresolved::Fault) => unreachable!(),
    }
}
