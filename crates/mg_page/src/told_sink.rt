//! What takes bytes and tells them. It fails by want of memory alone.

ghost use Rattle.std.specs.Prelude.{◌≡◌, []};

use mg_io::{IoFault, Sink};
use mg_text::Bytes;
use std::alloc::Global;
use std::marker::Model;

/// What takes bytes and tells them.
#[derive(Drop)]
pub(crate) struct ToldSink {
    bytes: Bytes,
}

impl Model for ToldSink {
    ghost use Rattle.std.specs.Prelude.{List, ℕ};

    ghost Value = { List ℕ };

    ghost view = { λ s. s.bytes };
}

impl ToldSink {
    /// No bytes.
    pub(crate) fn new(alloc: Global) -> ToldSink
        ensures { result ≡ [] }
    {
        ToldSink {
            bytes: Bytes::new(alloc),
        }
    }

    /// The bytes that were put.
    pub(crate) fn into_bytes(self) -> Bytes
        ensures { result ≡ self }
    {
        let ToldSink { bytes } = self;
        bytes
    }
}

impl Sink for ToldSink {
    ghost use Rattle.std.specs.Prelude.{Some};

    ghost bytes = { λ s. Some s };

    ghost faults = { λ s. 0 };

    fn put(&mut self, piece: &[u8]) -> Result<(), IoFault> {
        if piece.is_empty() {
            return Ok(());
        }
        self.bytes.extend(piece)?;
        Ok(())
    }
}
