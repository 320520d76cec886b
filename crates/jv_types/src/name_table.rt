//! The declarations of a program in tables by name.

ghost use Rattle.std.specs.Coded.{codes};
ghost use Rattle.jv_tree.specs.contracts.tree.ExprKind as exprs;
ghost use Rattle.jv_tree.specs.contracts.tree.StmtKind as stmts;
ghost use Rattle.jv_types.specs.inner.Kept.{IsTabled};

use crate::entry::{ClassEntry, EnumEntry};
use crate::protocols::Protocol;
use jv_tree::File;
use mg_text::Names;
use ts_tree::Typestate;

/// A program whose declarations have no type fault, in tables by name.
pub struct Table<'a> {
    pub(crate) files: &'a [File],
    pub(crate) typestates: &'a [Typestate],
    // What the typestates offer, in their order, and their names.
    pub(crate) protocols: Vec<Protocol<'a>>,
    pub(crate) typestate_names: Names,
    // The classes and their names, in file and text order.
    pub(crate) classes: Vec<ClassEntry<'a>>,
    pub(crate) class_names: Names,
    // The enums and their names.
    pub(crate) enums: Vec<EnumEntry<'a>>,
    pub(crate) enum_names: Names,
    ghost tabled: { IsTabled files.now typestates.now protocols.items typestate_names classes.items class_names enums.items enum_names } by { Prim.hlevel (codes, exprs.the_row.coded, stmts.the_row.coded) },
}

// One call lets go of it, wherever a function ends.
impl Drop for Table<'_> {
    fn drop(self) {
        let Table {
            files: _,
            typestates: _,
            protocols: _,
            typestate_names: _,
            classes: _,
            class_names: _,
            enums: _,
            enum_names: _,
        } = self;
    }
}
