//! The real files.
//! The adapter tells no content; the names that failed are kept.

ghost use Rattle.std.specs.Prelude.{◌≡◌, ◌≤◌, ◌++◌, [], length, take, ⊤, None, IsOk, IfOk, IfSome, IsErr, IsErrOf};
ghost use Rattle.std.specs.Io.KnownBytes.{Appends};
ghost use Rattle.mg_io.specs.Outside.{name_if_failed, Writes};
ghost use Rattle.mg_io.specs.Fakes.{counted_if_failed};

use crate::beside::write_file;
use crate::front::read_front;
use crate::refusal::Refusals;
use crate::refused_names::RefusedNames;
use crate::{Folder, IoFault};
use mg_text::{Bytes, Text};
use std::alloc::Global;
use std::fs;
use std::io::{self, Read};
use std::marker::Model;
use std::rt::Files;

/// The real files, under the names that the system knows them by. It does not tell them.
#[derive(Drop)]
pub struct HostFolder<'a, R: Files> {
    rt: &'a R,
    failed_reads: RefusedNames,
    failed_writes: RefusedNames,
}

impl<'a, R: Files> Model for HostFolder<'a, R> {
    ghost use Rattle.mg_io.specs.Fakes.{FailedNames};

    ghost Value = { FailedNames };

    ghost view = { λ f. record { reads = f.failed_reads.names.items; writes = f.failed_writes.names.items } };
}

impl<'a, R: Files> HostFolder<'a, R> {
    /// The files of this runtime. Nothing is allocated before the first call.
    pub fn new(alloc: Global, rt: &'a R) -> HostFolder<'a, R>
        ensures { result ≡ record { reads = []; writes = [] } }
    {
        HostFolder {
            rt,
            failed_reads: RefusedNames::new(alloc),
            failed_writes: RefusedNames::new(alloc),
        }
    }

    /// The names of the reads that failed, in their order.
    pub fn failed_reads(&self) -> &[Text]
        ensures { result.now ≡ self.now.reads }
    {
        self.failed_reads.as_slice()
    }

    /// The names of the writes that failed, in their order.
    pub fn failed_writes(&self) -> &[Text]
        ensures { result.now ≡ self.now.writes }
    {
        self.failed_writes.as_slice()
    }
}

impl<'a, R: Files> Folder for HostFolder<'a, R> {
    ghost use Rattle.std.specs.Prelude.{None};

    ghost files = { λ _. None };

    ghost failed_reads = { λ f. f.reads };

    ghost failed_writes = { λ f. f.writes };

    /// Answers the front of a file that was opened. `Failed` exactly where the system refuses that.
    /// No files are told, so nothing is said of these.
    fn read(&mut self, alloc: Global, name: &str, limit: usize) -> Result<Bytes, IoFault>
        ensures limit { IfOk result (λ bytes. length bytes ≤ limit) }
        ensures content { IfOk result (λ _. ⊤) }
        ensures front { IfOk result (λ bytes. (file : R.File)
            × IfSome (R.File.remaining file) (λ all. bytes ≡ take limit all)) }
        ensures failed_reads { self.new.reads ≡ self.old.reads ++ name_if_failed result name.now }
        ensures failed_writes { self.new.writes ≡ self.old.writes }
    {
        let kept = Text::of(alloc, name)?;
        self.failed_reads.reserve()?;
        let mut refusals = Refusals::none();
        let opened = fs::open(self.rt, name);
        let result = read_opened(alloc, opened, &mut refusals, limit);
        self.failed_reads.noted(kept, &refusals, result)
    }

    /// Hands all bytes to a file that was made. `Failed` exactly where the system refuses that, or to give it the name:
    /// it is made beside, but for a link, a device or a file of several names.
    fn write(&mut self, alloc: Global, name: &str, bytes: &[u8]) -> Result<(), IoFault>
        ensures files { Writes name.now bytes.now result None None }
        ensures handed { IsOk result → (made : R.File) × (file : R.File)
            × Appends (R.File.contents made) (R.File.contents file) bytes.now }
        ensures failed_writes { self.new.writes ≡ self.old.writes ++ name_if_failed result name.now }
        ensures failed_reads { self.new.reads ≡ self.old.reads }
    {
        let kept = Text::of(alloc, name)?;
        self.failed_writes.reserve()?;
        let mut refusals = Refusals::none();
        let written = write_file(alloc, self.rt, &mut refusals, name, bytes);
        self.failed_writes.noted(kept, &refusals, written)
    }
}

/// The first `limit` bytes of a file that was to be opened. `Failed` where it can't be opened or read.
fn read_opened<F: Read + Drop>(
    alloc: Global,
    opened: io::Result<F>,
    refusals: &mut Refusals,
    limit: usize,
) -> Result<Bytes, IoFault>
    ensures limit { IfOk result (λ bytes. length bytes ≤ limit) }
    ensures content { IfOk opened
        (λ file. IfOk result (λ bytes. IfSome (F.remaining file) (λ all. bytes ≡ take limit all))) }
    ensures refused { IsErr opened → IsErrOf result IoFault.Failed }
    ensures counted { refusals.new ≡ counted_if_failed result refusals.old }
{
    let mut reader = refusals.noted(opened)?;
    read_front(alloc, &mut reader, refusals, limit)
}
