//! The bytes that have come and aren't read yet.

ghost use Rattle.std.specs.Prelude.{◌≡◌, [], ◌++◌, drop, OnOk, OnErr, IfErr, IfOk, MatchOption};

use crate::heads::{Fault, Taken, take_frame};
use mg_text::{Bytes, Memory};
use std::alloc::Global;
use std::marker::Model;

/// The bytes that have come and aren't read yet. Contracts see them as the list of them.
#[derive(Drop)]
pub struct Frames {
    bytes: Bytes,
    passed: usize,
}

/// Why no body is given.
#[derive(Clone, Copy, PartialEq, Eq)]
pub enum FrameFault {
    /// What has come is no frame, and never becomes one.
    Refused {
        /// Why.
        fault: Fault,
        /// How many bytes stand before the line that is at fault.
        at: usize,
    },
    /// Want of memory.
    Memory,
}

impl From<Memory> for FrameFault {
    ghost use Rattle.std.specs.Prelude.{◌≡◌};
    ghost use Rattle.lsp_frames.specs.declared.frames.FrameFault.TheVariants.{Memory as Want};

    ghost from_gives = { λ _ e. e ≡ Want };

    fn from(_error: Memory) -> FrameFault {
        FrameFault::Memory
    }
}

impl Model for Frames {
    ghost use Rattle.std.specs.Prelude.{◌≤◌, List, ℕ, length, drop};

    ghost Value = { List ℕ };

    ghost view = { λ f. drop f.passed f.bytes };

    ghost invariant = { λ f. f.passed ≤ length f.bytes };
}

impl Frames {
    ghost use Rattle.std.specs.Prelude.{ℕ};
    ghost use Rattle.lsp_frames.specs.declared.heads.Taken.TheVariants.{More, Refused};
    ghost use Rattle.lsp_frames.specs.declared.heads.Fault.{Fault};
    ghost use Rattle.lsp_frames.specs.declared.frames.FrameFault.TheVariants.{Refused as Faulty};
    ghost use Rattle.lsp_frames.specs.Reading.{IsRead};
    ghost use Rattle.lsp_frames.specs.Frames.{IsFrame};

    /// No bytes. Nothing is allocated before the first come.
    pub fn new(alloc: Global) -> Frames
        ensures { result ≡ [] }
    {
        Frames {
            bytes: Bytes::new(alloc),
            passed: 0,
        }
    }

    /// More bytes have come. What is read is let go of.
    ///
    /// # Errors
    /// `Memory` only. The bytes are then as before.
    pub fn feed(&mut self, alloc: Global, more: &[u8]) -> Result<(), Memory>
        ensures ok { OnOk result (self.new ≡ self.old ++ more.now) }
        ensures err { OnErr result (self.new ≡ self.old) }
    {
        if self.passed == 0 {
            return self.bytes.extend(more);
        }
        let mut bytes = Bytes::of(alloc, &self.bytes.as_slice()[self.passed..])?;
        bytes.extend(more)?;
        self.bytes = bytes;
        self.passed = 0;
        Ok(())
    }

    /// The body of the frame that has come, which is read then. None where more bytes are wanted. A body has at
    /// most so many bytes as the limit says.
    ///
    /// # Errors
    /// `Refused` exactly where what has come never becomes a frame. `Memory`, where memory is wanted. The bytes are
    /// then as before.
    pub fn next(&mut self, alloc: Global, limit: u32) -> Result<Option<Bytes>, FrameFault>
        ensures ok { IfOk result (λ o. MatchOption o (IsRead limit self.old More × (self.new ≡ self.old))
            (λ body. IsFrame limit self.old body self.new)) }
        ensures refused { IfErr result (λ e. (fault : Fault) (at : ℕ) → e ≡ Faulty fault at → IsRead limit self.old (Refused fault at)) }
        ensures err { OnErr result (self.new ≡ self.old) }
    {
        let waiting = &self.bytes.as_slice()[self.passed..];
        match take_frame(waiting, limit) {
            Taken::More => Ok(None),
            Taken::Refused { fault, at } => Err(FrameFault::Refused { fault, at }),
            Taken::Frame { begins, ends } => {
                let body = Bytes::of(alloc, &waiting[begins..ends])?;
                self.passed += ends;
                Ok(Some(body))
            }
        }
    }
}
