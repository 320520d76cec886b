//! What the system refuses has failed, and is counted.

ghost use Rattle.std.specs.Prelude.{◌≡◌, ◌<◌, Ok, IfOk, IsErr, IsErrOf};
ghost use Rattle.mg_io.specs.Outside.{Rose};
ghost use Rattle.mg_io.specs.Fakes.{counted, counted_if_failed};

use crate::IoFault;
use std::io;
use std::marker::Model;

/// How many calls the system refused. Only its answers raise the count, so that whoever tells of
/// a fault by the count has one of the system's. It stands still at 2^64 - 1.
#[derive(Drop)]
pub struct Refusals {
    count: u64,
}

impl Model for Refusals {
    ghost use Rattle.std.specs.Prelude.{ℕ};

    ghost Value = { ℕ };

    ghost view = { λ r. r.count };
}

impl Refusals {
    /// No call was refused.
    pub fn none() -> Refusals
        ensures { result ≡ 0 }
    {
        Refusals { count: 0 }
    }

    /// How many calls were refused.
    pub fn count(&self) -> u64
        ensures { result ≡ self.now }
    {
        self.count
    }

    /// What the system answered, where its refusal is `Failed`, and counted.
    pub fn noted<T>(&mut self, answer: io::Result<T>) -> Result<T, IoFault>
        ensures ok { IfOk answer (λ value. result ≡ Ok value) }
        ensures err { IsErr answer → IsErrOf result IoFault.Failed }
        ensures counted { self.new ≡ counted_if_failed result self.old }
        ensures risen { IsErr result → Rose self.old self.new }
    {
        match answer {
            Ok(value) => Ok(value),
            Err(_) => Err(self.failed()),
        }
    }

    /// How many bytes a writer took of those that were left. To take none is a refusal.
    pub fn noted_write(&mut self, answer: io::Result<usize>) -> Result<usize, IoFault>
        ensures ok { IfOk answer (λ count. 0 < count → result ≡ Ok count) }
        ensures none { IfOk answer (λ count. count ≡ 0 → IsErrOf result IoFault.Failed) }
        ensures err { IsErr answer → IsErrOf result IoFault.Failed }
        ensures counted { self.new ≡ counted_if_failed result self.old }
        ensures taken { IfOk result (λ count. answer ≡ Ok count) }
        ensures risen { IsErr result → Rose self.old self.new }
    {
        match answer {
            Ok(0) => Err(self.failed()),
            Ok(count) => Ok(count),
            Err(_) => Err(self.failed()),
        }
    }

    // One more was refused.
    fn failed(&mut self) -> IoFault
        ensures fault { result ≡ IoFault.Failed }
        ensures counted { self.new ≡ counted self.old }
        ensures risen { Rose self.old self.new }
    {
        self.count = self.count.saturating_add(1);
        IoFault::Failed
    }
}
