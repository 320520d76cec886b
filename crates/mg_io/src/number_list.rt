//! The numbers of the calls that are to fail.

ghost use Rattle.std.specs.Prelude.{◌≡◌, ◌↔◌, [], Contains, IsTrue, IfOk};

use mg_text::Memory;
use std::alloc::Global;
use std::marker::Model;

/// Numbers of calls, which count from 0.
#[derive(Drop)]
pub struct NumberList {
    numbers: Vec<u32>,
}

impl Model for NumberList {
    ghost use Rattle.std.specs.Prelude.{List, ℕ};

    ghost Value = { List ℕ };

    ghost view = { λ l. l.numbers.items };
}

impl NumberList {
    /// No numbers. Nothing is allocated.
    pub fn new(alloc: Global) -> NumberList
        ensures { result ≡ [] }
    {
        NumberList {
            numbers: Vec::new(alloc),
        }
    }

    /// These numbers.
    pub fn of(alloc: Global, numbers: &[u32]) -> Result<NumberList, Memory>
        ensures { IfOk result (λ l. l ≡ numbers.now) }
    {
        let numbers = Vec::from_slice(alloc, numbers)?;
        Ok(NumberList { numbers })
    }

    /// Whether the number is listed.
    pub fn has(&self, number: u64) -> bool
        ensures { IsTrue result ↔ Contains self.now number }
    {
        self.numbers
            .iter()
            .any(|listed| u64::from(*listed) == number)
    }
}
