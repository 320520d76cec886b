//! The names of the files at which the system refused a call.

ghost use Rattle.std.specs.Prelude.{◌≡◌, ◌<◌, ◌++◌, [], OnOk};
ghost use Rattle.mg_io.specs.Outside.{name_if_failed};
ghost use Rattle.mg_io.specs.Fakes.{counted_if_failed};

use crate::IoFault;
use crate::refusal::Refusals;
use mg_text::{List, Memory, Text};
use std::alloc::Global;

/// Names of files, in the order of the calls that were refused. One is added only with a refusal
/// of the system's.
#[derive(Drop)]
pub struct RefusedNames {
    names: List<Text>,
}

impl RefusedNames {
    /// No names. Nothing is allocated.
    pub fn new(alloc: Global) -> RefusedNames
        ensures { result.names.items ≡ [] }
    {
        RefusedNames {
            names: List::new(alloc),
        }
    }

    /// The names.
    pub fn as_slice(&self) -> &[Text]
        ensures { result.now ≡ self.now.names.items }
    {
        self.names.as_slice()
    }

    /// Makes room for one more name.
    pub fn reserve(&mut self) -> Result<(), Memory>
        ensures names { self.new.names.items ≡ self.old.names.items }
        ensures room { OnOk result (0 < self.new.names.spare) }
    {
        self.names.reserve(1)
    }

    /// Hands on what a call answered, and keeps the name where it failed. The system's refusals in
    /// this call show that. There is room, so no memory is taken.
    pub fn noted<T>(
        &mut self,
        kept: Text,
        refusals: &Refusals,
        answer: Result<T, IoFault>,
    ) -> Result<T, IoFault>
        requires room { 0 < self.old.names.spare }
        requires refused { refusals.now ≡ counted_if_failed answer 0 }
        ensures same { result ≡ answer }
        ensures names { self.new.names.items ≡ self.old.names.items ++ name_if_failed answer kept }
    {
        if let Err(IoFault::Failed) = answer {
            self.names.add(kept);
        }
        answer
    }
}
