//! The pool of a class that is being made: each entry stands once, at the number that it got when
//! it was first asked for.

ghost use Rattle.std.specs.Prelude.{◌≡◌, [], ◌≤◌, ◌⊎◌, IfOk, OnErr, IsErrOf, length, map, take};
ghost use Rattle.std.specs.Bool.{Decides};
ghost use Rattle.cls_tree.specs.Emitted.{number_of, utf8};
ghost use Rattle.gen_pool.specs.Keys.{const_of};
ghost use Rattle.gen_pool.specs.Made.{IsMade, IsFull, IsFrontOf};

use crate::key::{Key, const_of, key_of};
use cls_tree::Const;
use indexmap::IndexSet;
use mg_text::{List, Memory};
use std::alloc::Global;
use std::marker::Model;

/// How many entries a class file can hold.
const MOST_ENTRIES: usize = 65534;

/// Why an entry isn't added.
#[derive(Clone, Copy)]
pub enum PoolFault {
    /// There are 65,534 entries, and none of them is equal to it.
    Full,
    /// Want of memory.
    Memory,
}

impl From<Memory> for PoolFault {
    ghost use Rattle.std.specs.Prelude.{◌≡◌};
    ghost use Rattle.gen_pool.specs.declared.pool.PoolFault.TheVariants as faults;

    ghost from_gives = { λ _ e. e ≡ faults.Memory };

    fn from(_memory: Memory) -> PoolFault {
        PoolFault::Memory
    }
}

/// Constants, each once, in the order in which they were first asked for. Contracts see the list
/// of the constants.
pub struct Pool {
    keys: IndexSet<Key>,
}

// One call lets go of it, wherever a function ends.
impl Drop for Pool {
    fn drop(self) {
        let Pool { keys: _ } = self;
    }
}

impl Model for Pool {
    ghost use Rattle.std.specs.Prelude.{List, map};
    ghost use Rattle.cls_tree.specs.declared.class.Const.{Const};

    ghost Value = { List Const };

    ghost use Rattle.gen_pool.specs.Keys.{const_of};

    ghost view = { λ p. map const_of p.keys.keys };
}

impl Pool {
    /// A pool of no constants.
    pub fn new(alloc: Global) -> Pool
        ensures { result ≡ [] }
    {
        Pool {
            keys: IndexSet::new(alloc),
        }
    }

    /// How many constants there are.
    pub fn len(&self) -> usize
        ensures { result ≡ length self.now }
    {
        self.keys.len()
    }

    /// The constants, in their order.
    pub fn entries(&self) -> &[Key]
        ensures { map const_of result.now ≡ self.now }
    {
        self.keys.as_slice()
    }

    /// The number of a constant, which is appended if it is new. There is no limit.
    #[tactic(auto, using(crate::proofs::Fronts::fronts))]
    pub fn number_of(&mut self, key: Key) -> Result<usize, Memory>
        ensures made { IfOk result (λ n. IsMade n self.new (number_of (const_of key) self.old)) }
        ensures unchanged { OnErr result (self.new ≡ self.old) }
        ensures kept { IsFrontOf self.old self.new }
    {
        let (index, _) = self.keys.insert_full(key)?;
        let len = self.keys.len();
        prove!(index < len);
        Ok(index + 1)
    }

    /// Whether a constant would be one too many.
    fn is_full_for(&self, key: &Key) -> bool
        ensures { Decides result (IsFull (const_of key.now) self.now) }
    {
        match self.keys.get_index_of(key) {
            Some(_) => false,
            None => self.keys.len() == MOST_ENTRIES,
        }
    }

    /// The number of a constant, which is appended if it is new and there is room in a class file.
    /// A fault leaves the pool as it was.
    pub fn add(&mut self, entry: Const) -> Result<u16, PoolFault>
        requires room { length self.old ≤ 65534 }
        ensures made { IfOk result (λ n. IsMade n self.new (number_of entry self.old)) }
        ensures room { length self.new ≤ 65534 }
        ensures full { IsErrOf result PoolFault.Full → IsFull entry self.old }
        ensures full_where { IsFull entry self.old → IsErrOf result PoolFault.Full ⊎ IsErrOf result PoolFault.Memory }
        ensures unchanged { OnErr result (self.new ≡ self.old) }
    {
        let key = key_of(*self.keys.allocator(), entry)?;
        if self.is_full_for(&key) {
            return Err(PoolFault::Full);
        }
        let number = self.number_of(key)?;
        Ok(number as u16)
    }

    /// The number of a text, which is appended if it is new.
    #[tactic(auto, using(crate::proofs::Fronts::fronts))]
    pub fn utf8(&mut self, text: &str) -> Result<usize, Memory>
        ensures made { IfOk result (λ n. IsMade n self.new (utf8 text.now self.old)) }
        ensures kept { IsFrontOf self.old self.new }
    {
        let text = String::from_str(*self.keys.allocator(), text)?;
        self.number_of(Key::Utf8(text))
    }

    /// Drops what stands behind the first constants.
    pub fn truncate(&mut self, len: usize)
        ensures { self.new ≡ take len self.old }
    {
        self.keys.truncate(len);
    }

    /// The constants, in their order.
    /// # Errors
    /// Want of memory, and numbers that no class file can hold.
    pub fn into_consts(self, alloc: Global) -> Result<List<Const>, Memory>
        ensures { IfOk result (λ consts. consts.items ≡ self) }
    {
        let mut consts = List::new(alloc);
        let Pool { keys } = self;
        for key in keys {
            consts.push(const_of(key)?)?;
        }
        Ok(consts)
    }
}
