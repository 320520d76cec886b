//! What is visible at a place of a method.

ghost use Rattle.std.specs.Prelude.{◌≡◌, List, option_map};
ghost use Rattle.std.specs.Coded.{codes};
ghost use Rattle.jv_types.specs.inner.Tabled.{IsEntryOf};
ghost use Rattle.jv_types.specs.Tables.{program_in};

use crate::entry::ClassEntry;
use crate::name_table::Table;
use jv_tree::MethodDecl;
use std::alloc::Global;

/// The loops and switches around a place, the innermost first. A loop has its label.
#[derive(Clone, Copy)]
pub(crate) enum Around<'s> {
    Outside,
    Loop(Option<&'s str>, &'s Around<'s>),
    Switch(&'s Around<'s>),
}

/// Where a place stands: its class and its method, and what is around it.
#[derive(Clone, Copy)]
pub(crate) struct Scope<'s, 'a> {
    pub alloc: Global,
    pub table: &'s Table<'a>,
    pub class: &'s ClassEntry<'a>,
    pub method: &'a MethodDecl,
    pub around: &'s Around<'s>,
    ghost entry: { IsEntryOf (program_in table.now) class.now } by { Prim.hlevel codes },
}

impl<'s, 'a> Scope<'s, 'a> {
    ghost use Rattle.jv_scope.specs.Named.{Named};
    ghost use Rattle.jv_types.specs.declared.value_type.ValueType.{ValueType as KeptType};
    ghost use Rattle.jv_types.specs.inner.Scopes.{around_seen, scope_seen};

    /// The same class and method, within a loop or a switch.
    pub(crate) fn within<'t>(&'t self, around: &'t Around<'t>) -> Scope<'t, 'a>
        ensures { (locals : List (Named KeptType)) → scope_seen result locals
            ≡ record (scope_seen self.now locals) { around = around_seen around.now } }
    {
        Scope {
            alloc: self.alloc,
            table: self.table,
            class: self.class,
            method: self.method,
            around,
        }
    }
}
