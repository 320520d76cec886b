//! A method as far as it is resolved.
//! Contracts see what was numbered so far, and what is in scope.

ghost use Rattle.std.specs.Prelude.{◌≡◌, [], OnOk, IfOk, length};
ghost use Rattle.jv_resolve_law.specs.Statements.{slot_more, loop_more};
ghost use Rattle.jv_resolve.specs.inner.Counted.{counted_seen, counting};
ghost use Rattle.jv_resolve.specs.inner.Gives.{Gives};
ghost use Rattle.jv_resolve.specs.inner.Naming.{unnumbered};
ghost use Rattle.jv_scope.specs.Named.{under};
ghost use Rattle.jv_resolve.specs.inner.Seen.{tables_seen};

use crate::given::Unresolved;
use crate::locals::{Locals, slots};
use crate::lookup::meant;
use crate::names::{add_name, count};
use jv_core::{CoreLoop, CoreSlot};
use jv_scope::Local;
use jv_types::Table;
use mg_text::{List, Memory, Names, Place};
use std::alloc::Global;
use ts_tree::TypeName;

/// A method as far as it is resolved, with what is in scope.
#[derive(Drop)]
pub(crate) struct Body<'a> {
    /// The names of the program.
    pub names: Names,
    pub locals: Locals<'a>,
    pub slots: List<CoreSlot>,
    pub loops: List<CoreLoop>,
}

impl<'a> Body<'a> {
    /// Nothing is resolved yet.
    pub(crate) fn new(alloc: Global, names: Names) -> Body<'a>
        ensures counted { counted_seen result ≡ unnumbered names }
        ensures locals { result.locals ≡ [] }
    {
        Body {
            names,
            locals: Locals::new(alloc),
            slots: List::new(alloc),
            loops: List::new(alloc),
        }
    }

    /// One more slot. Nothing is in its scope yet.
    pub(crate) fn add_slot(
        &mut self,
        table: &Table<'_>,
        ty: &TypeName,
        name: &str,
    ) -> Result<Local, Unresolved>
        ensures it { Gives (λ l. counting (under name.now l) (counted_seen self.new)) result
            (slot_more (tables_seen table.now) ty.now name.now (counted_seen self.old)) }
        ensures locals { self.new.locals ≡ self.old.locals }
    {
        let ty = meant(table, ty)?;
        let number = add_name(&mut self.names, name)?;
        let slot = count(self.slots.len())?;
        self.slots.push(CoreSlot { name: number, ty })?;
        Ok(Local { slot, ty })
    }

    /// One more loop, with the slots in scope.
    pub(crate) fn add_loop(&mut self, alloc: Global, place: Place) -> Result<u32, Memory>
        ensures number { IfOk result (λ n. n ≡ length self.old.loops.items) }
        ensures added { OnOk result (counted_seen self.new ≡ loop_more place self.old.locals (counted_seen self.old)) }
        ensures locals { self.new.locals ≡ self.old.locals }
    {
        let scope = slots(alloc, &self.locals)?;
        let number = count(self.loops.len())?;
        self.loops.push(CoreLoop { place, scope })?;
        Ok(number)
    }
}
