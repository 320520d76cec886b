//! The parameters and locals in scope, in a table by name, each with what is known of it.
//! Contracts see them as a list, the last one first.

ghost use Rattle.std.specs.Prelude.{◌≡◌, ◌∷◌, ◌-◌, [], Option, None, OnOk, option_map, length, drop};
ghost use Rattle.jv_scope.specs.Named.{named, under};

use jv_core::CoreType;
use mg_text::Memory;
use std::alloc::Global;
use std::collections::HashMap;
use std::marker::Model;

/// The slot of a parameter or local, and its type.
#[derive(Clone, Copy)]
pub struct Local {
    pub slot: u32,
    pub ty: CoreType,
}

/// A parameter or local: its name, and what is known of it.
#[derive(Clone, Copy)]
pub struct Declared<'a, T> {
    pub name: &'a str,
    pub it: T,
}

/// The parameters and locals in scope, each name once.
#[derive(Drop)]
pub struct Locals<'a, T> {
    alloc: Global,
    by_name: HashMap<String, T>,
    // In the order of their declarations.
    stack: Vec<Declared<'a, T>>,
}

impl<'a, T> Model for Locals<'a, T> {
    ghost use Rattle.std.specs.Prelude.{List};
    ghost use Rattle.std.specs.Coded.{coded_list};
    ghost use Rattle.std.specs.HashMap.{get_by_text};
    ghost use Rattle.jv_scope.specs.Named.{Named, named_code};

    ghost Value = { List (Named T) };

    ghost coded = { coded_list (named_code T.code) };

    ghost use Rattle.jv_scope.specs.Row.{row_seen};
    ghost use Rattle.jv_scope.specs.inner.Kept.{AreLookedUp};

    ghost view = { λ l. row_seen l.stack.items };

    ghost invariant = { λ l. AreLookedUp (get_by_text l.by_name) (row_seen l.stack.items) };
}

impl<'a, T: Copy> Locals<'a, T> {
    ghost use Rattle.jv_scope.specs.Row.{row_seen};

    /// None.
    pub fn new(alloc: Global) -> Locals<'a, T>
        ensures { result ≡ [] }
    {
        Locals {
            alloc,
            by_name: HashMap::new(alloc),
            stack: Vec::new(alloc),
        }
    }

    /// How many are in scope.
    pub fn len(&self) -> usize
        ensures { result ≡ length self.now }
    {
        self.stack.len()
    }

    /// What is known of the one of a name.
    pub fn find(&self, name: &str) -> Option<T>
        ensures { result ≡ option_map (λ n. n.it) (named self.now name.now) }
    {
        self.by_name.get(name).copied()
    }

    /// One more, whose name is new. After an error the ones in scope are as before.
    pub fn declare(&mut self, name: &'a str, it: T) -> Result<(), Memory>
        requires { named self.old name.now ≡ None }
        ensures { OnOk result (self.new ≡ under name.now it ∷ self.old) }
    {
        let key = String::from_str(self.alloc, name)?;
        self.stack.reserve(1)?;
        self.by_name.insert(key, it)?;
        self.stack.push(Declared { name, it })?;
        Ok(())
    }

    // All but the last one.
    fn undeclare(&mut self)
        ensures { self.new ≡ drop 1 self.old }
    {
        if let Some(last) = self.stack.pop() {
            self.by_name.remove(last.name);
        }
    }

    /// The first `len` stay in scope.
    pub fn truncate(&mut self, len: usize)
        ensures { self.new ≡ drop (length self.old - len) self.old }
    {
        while self.len() > len {
            self.undeclare();
        }
    }

    /// The ones in scope, the first one first.
    pub fn as_slice(&self) -> &[Declared<'a, T>]
        ensures { row_seen result.now ≡ self.now }
    {
        self.stack.as_slice()
    }
}
