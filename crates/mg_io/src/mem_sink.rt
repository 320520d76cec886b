//! A sink in memory, which tells its bytes and fails at the calls that are listed.

ghost use Rattle.std.specs.Prelude.{◌≡◌, ◌≢◌, [], Contains, Some, IsOk, IsErrOf};
ghost use Rattle.mg_io.specs.Outside.{Puts, Counts};
ghost use Rattle.mg_io.specs.Fakes.{counted, counted_if_failed};

use crate::{IoFault, NumberList, Sink};
use mg_text::Bytes;
use std::alloc::Global;
use std::marker::Model;

/// A sink in memory, which tells its bytes. Calls with a piece that is not empty are counted
/// from 0, and those whose number is listed fail.
#[derive(Drop)]
pub struct MemSink {
    bytes: Bytes,
    calls: u64,
    failing: NumberList,
    faults: u64,
}

impl Model for MemSink {
    ghost use Rattle.mg_io.specs.Fakes.{MemorySink};

    ghost Value = { MemorySink };

    ghost view = { λ s. record { bytes = s.bytes; calls = s.calls; failing = s.failing; faults = s.faults } };
}

impl MemSink {
    /// A sink with no bytes, at which the listed calls fail.
    /// Nothing is allocated before the first byte.
    pub fn new(alloc: Global, failing: NumberList) -> MemSink
        ensures { result ≡ record { bytes = []; calls = 0; failing = failing; faults = 0 } }
    {
        MemSink {
            bytes: Bytes::new(alloc),
            calls: 0,
            failing,
            faults: 0,
        }
    }

    /// The bytes so far.
    pub fn bytes(&self) -> &[u8]
        ensures { result.now ≡ self.now.bytes }
    {
        self.bytes.as_slice()
    }

    /// How many calls failed.
    pub fn faults(&self) -> u64
        ensures { result ≡ self.now.faults }
    {
        self.faults
    }
}

impl Sink for MemSink {
    ghost use Rattle.std.specs.Prelude.{Some};

    ghost bytes = { λ s. Some s.bytes };

    ghost faults = { λ s. s.faults };

    /// Fails exactly where the call is listed, and then appends nothing.
    fn put(&mut self, piece: &[u8]) -> Result<(), IoFault>
        ensures bytes { Puts piece.now result (Some self.old.bytes) (Some self.new.bytes) }
        ensures faults { Counts result self.old.faults self.new.faults }
        ensures empty { piece.now ≡ [] → IsOk result × (self.new ≡ self.old) }
        ensures refused { IsErrOf result IoFault.Failed
            → Contains self.old.failing self.old.calls × (self.new.bytes ≡ self.old.bytes) }
        ensures always { Contains self.old.failing self.old.calls → piece.now ≢ []
            → IsErrOf result IoFault.Failed }
        ensures risen { self.new.faults ≡ counted_if_failed result self.old.faults }
        ensures calls { piece.now ≢ [] → self.new.calls ≡ counted self.old.calls }
        ensures failing { self.new.failing ≡ self.old.failing }
    {
        if piece.is_empty() {
            return Ok(());
        }
        let call = self.calls;
        self.calls = call.saturating_add(1);
        if self.failing.has(call) {
            self.faults = self.faults.saturating_add(1);
            return Err(IoFault::Failed);
        }
        self.bytes.extend(piece)?;
        Ok(())
    }
}
