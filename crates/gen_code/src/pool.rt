//! A pool of constants, each once.

ghost use Rattle.std.specs.Prelude.{◌≡◌, [], ◌⊎◌, None, IfOk, OnOk, IfErr, OnErr, IsErrOf};
ghost use Rattle.cls_tree.specs.Emitted.{number_of};
ghost use Rattle.cls_tree.specs.View.{code_of};
ghost use Rattle.jv_core.specs.View.{method_of};
ghost use Rattle.gen_rules.specs.Classes.{Emits};
ghost use Rattle.gen_pool.specs.Made.{IsMade, IsFull};
ghost use Rattle.gen_class.specs.First.{IsExcessOfCode, TellsCode};

use crate::consts::keep_up;
use cls_tree::{Code, Const};
use gen_class::{GenFault, code_of_method};
use gen_pool::{Pool as Keys, PoolFault};
use jv_core::{Core, CoreMethod};
use std::alloc::Global;
use std::marker::Model;

/// Constants, each once, in the order in which they were first asked for: at most 65,534, as many as
/// a class file can hold. Contracts see the list of the constants.
#[derive(Drop)]
pub struct Pool {
    keys: Keys,
    entries: Vec<Const>,
}

impl Model for Pool {
    ghost use Rattle.std.specs.Prelude.{◌≡◌, ◌≤◌, List, length};
    ghost use Rattle.cls_tree.specs.declared.class.Const.{Const};

    ghost Value = { List Const };

    ghost view = { λ p. p.entries.items };

    ghost invariant = { λ p. (p.keys ≡ p.entries.items) × (length p.entries.items ≤ 65534) };
}

impl Pool {
    /// A pool of no constants.
    pub fn new(alloc: Global) -> Pool
        ensures { result ≡ [] }
    {
        Pool {
            keys: Keys::new(alloc),
            entries: Vec::new(alloc),
        }
    }

    /// The constants, in their order.
    pub fn entries(&self) -> &[Const]
        ensures { result.now ≡ self.now }
    {
        self.entries.as_slice()
    }

    /// The number of a constant, which counts from 1. A new one is appended. A fault leaves the pool
    /// as it was.
    pub fn add(&mut self, entry: Const) -> Result<u16, PoolFault>
        ensures made { IfOk result (λ n. IsMade n self.new (number_of entry self.old)) }
        ensures full { IsErrOf result PoolFault.Full → IsFull entry self.old }
        ensures full_where { IsFull entry self.old → IsErrOf result PoolFault.Full ⊎ IsErrOf result PoolFault.Memory }
        ensures unchanged { OnErr result (self.new ≡ self.old) }
    {
        let alloc = *self.entries.allocator();
        let number = self.keys.add(entry)?;
        keep_up(alloc, &mut self.keys, &mut self.entries)?;
        Ok(number)
    }

    /// The code of a method. The constants that it needs are found or appended. A fault leaves the
    /// pool as it was.
    pub(crate) fn emit(
        &mut self,
        alloc: Global,
        core: &Core,
        method: &CoreMethod,
    ) -> Result<Code, GenFault>
        ensures emitted { IfOk result (λ c. Emits core.now (method_of method.now) self.old (code_of c) self.new) }
        ensures fine { OnOk result (IsExcessOfCode core.now (method_of method.now) self.old None) }
        ensures fault { IfErr result (TellsCode core.now (method_of method.now) self.old) }
        ensures unchanged { OnErr result (self.new ≡ self.old) }
    {
        let old = self.entries.len();
        match code_of_method(alloc, core, method, &mut self.keys) {
            Ok(code) => {
                keep_up(alloc, &mut self.keys, &mut self.entries)?;
                Ok(code)
            }
            Err(fault) => {
                self.keys.truncate(old);
                Err(fault)
            }
        }
    }
}
