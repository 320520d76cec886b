//! The fields or the methods of a class, in their order and in a table.

ghost use Rattle.std.specs.Prelude.{◌≡◌, map, IfOk};
ghost use Rattle.std.specs.List.{position};
ghost use Rattle.std.proofs.Props.{props};
ghost use Rattle.indexmap.specs.IndexMap.{get};
ghost use Rattle.vm_model.specs.Links.{is_member};
ghost use Rattle.vm_load.specs.Declaring.{declared_of, named_of};
ghost use Rattle.vm_load.specs.Firsts.{HasFirsts};

use crate::declared::Declared;
use crate::numbers::{Key, number_all, number_in};
use crate::pool::NamedType;
use indexmap::IndexMap;
use mg_text::Memory;
use std::alloc::Global;

/// Declared members, and the number of the first of each name, descriptor and kind.
pub(crate) struct Members<'a> {
    pub all: Vec<Declared<'a>>,
    numbers: IndexMap<Key, u32>,
    ghost firsts: { HasFirsts (get ⟦<Key as PartialEq>⟧.eq numbers) (map declared_of all.items) } by { Prim.hlevel props },
}

// One call lets go of it, wherever a function ends.
impl Drop for Members<'_> {
    fn drop(self) {
        let Members { all: _, numbers: _ } = self;
    }
}

impl<'a> Members<'a> {
    /// These members, in a table.
    pub(crate) fn new(alloc: Global, all: Vec<Declared<'a>>) -> Result<Members<'a>, Memory>
        ensures { IfOk result (λ m. map declared_of m.all.items ≡ map declared_of all.entry.items) }
    {
        let mut numbers = IndexMap::new(alloc);
        number_all(alloc, all.as_slice(), &mut numbers)?;
        Ok(Members { all, numbers })
    }

    /// The number of the first member of a name, a descriptor and a kind.
    pub(crate) fn find(
        &self,
        alloc: Global,
        wanted: NamedType<'_>,
        is_static: bool,
    ) -> Result<Option<u32>, Memory>
        ensures { IfOk result (λ n. n ≡ position (is_member (named_of wanted.entry) is_static) (map declared_of self.now.all.items)) }
    {
        number_in(alloc, &self.numbers, wanted, is_static)
    }
}
