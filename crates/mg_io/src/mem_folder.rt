//! A folder in memory, which tells its files and fails at the calls that are listed.

ghost use Rattle.std.specs.Prelude.{◌≡◌, ◌≤◌, ◌++◌, ◌⊎◌, ◌↔◌, [], length, take, IsTrue, Some, option_map, IfOk, OnErr, IsErrOf};
ghost use Rattle.std.specs.FinMap as map;
ghost use Rattle.mg_io.specs.Outside.{name_if_failed, Writes};
ghost use Rattle.mg_io.specs.Fakes.{counted, IsListed, RefusesRead};

use crate::{FileList, Folder, IoFault, NumberList};
use mg_text::{Bytes, List, Memory, Text};
use std::alloc::Global;
use std::marker::Model;

/// A folder in memory, which tells its files. Its calls of `read` and `write` are counted
/// together from 0, and those whose number is listed fail.
pub struct MemFolder {
    files: FileList,
    calls: u64,
    failing: NumberList,
    failed_reads: List<Text>,
    failed_writes: List<Text>,
}

// One call lets go of it, wherever a function ends.
impl Drop for MemFolder {
    fn drop(self) {
        let MemFolder {
            files: _,
            calls: _,
            failing: _,
            failed_reads: _,
            failed_writes: _,
        } = self;
    }
}

impl Model for MemFolder {
    ghost use Rattle.mg_io.specs.Fakes.{MemoryFolder, folder_code};

    ghost Value = { MemoryFolder };

    ghost coded = { folder_code };

    ghost view = { λ f. record {
      files = f.files;
      calls = f.calls;
      failing = f.failing;
      failed_reads = f.failed_reads.items;
      failed_writes = f.failed_writes.items;
    } };
}

impl MemFolder {
    /// A folder of these files, at which the listed calls fail. Room for the name of the first
    /// read and of the first write that fail is taken at once.
    pub fn new(alloc: Global, files: FileList, failing: NumberList) -> Result<MemFolder, Memory>
        ensures { IfOk result (λ f. f ≡ record { files = files; calls = 0; failing = failing; failed_reads = []; failed_writes = [] }) }
    {
        let mut failed_reads = List::new(alloc);
        failed_reads.reserve(1)?;
        let mut failed_writes = List::new(alloc);
        failed_writes.reserve(1)?;
        Ok(MemFolder {
            files,
            calls: 0,
            failing,
            failed_reads,
            failed_writes,
        })
    }

    /// What the named file holds, where there is one. It is no call of `read`.
    pub fn content(&self, name: &str) -> Option<&[u8]>
        ensures { option_map (λ bytes. bytes.now) result ≡ map.get self.now.files name.now }
    {
        self.files.content(name)
    }

    /// The names of the reads that failed, in their order.
    pub fn failed_reads(&self) -> &[Text]
        ensures { result.now ≡ self.now.failed_reads }
    {
        self.failed_reads.as_slice()
    }

    /// The names of the writes that failed, in their order.
    pub fn failed_writes(&self) -> &[Text]
        ensures { result.now ≡ self.now.failed_writes }
    {
        self.failed_writes.as_slice()
    }

    /// How many calls of `read` and `write` there were.
    pub fn calls(&self) -> u64
        ensures { result ≡ self.now.calls }
    {
        self.calls
    }

    /// Counts a call, and answers whether it is listed as one that fails.
    fn count(&mut self) -> bool
        ensures listed { IsTrue result ↔ IsListed self.old }
        ensures counted { self.new ≡ record self.old { calls = counted self.old.calls } }
    {
        let call = self.calls;
        self.calls = call.saturating_add(1);
        self.failing.has(call)
    }
}

impl Folder for MemFolder {
    ghost use Rattle.std.specs.Prelude.{Some};

    ghost files = { λ f. Some f.files };

    ghost failed_reads = { λ f. f.failed_reads };

    ghost failed_writes = { λ f. f.failed_writes };

    /// Fails exactly where the call is listed or no file has the name.
    fn read(&mut self, alloc: Global, name: &str, limit: usize) -> Result<Bytes, IoFault>
        ensures limit { IfOk result (λ bytes. length bytes ≤ limit) }
        ensures content { IfOk result
            (λ bytes. option_map (take limit) (map.get self.old.files name.now) ≡ Some bytes) }
        ensures files { self.new.files ≡ self.old.files }
        ensures failed_reads { self.new.failed_reads
            ≡ self.old.failed_reads ++ name_if_failed result name.now }
        ensures failed_writes { self.new.failed_writes ≡ self.old.failed_writes }
        ensures refused { IsErrOf result IoFault.Failed → RefusesRead self.old name.now }
        ensures always { RefusesRead self.old name.now
            → IsErrOf result IoFault.Failed ⊎ IsErrOf result IoFault.Memory }
        ensures calls { self.new.calls ≡ counted self.old.calls }
        ensures failing { self.new.failing ≡ self.old.failing }
    {
        let listed = self.count();
        if !listed {
            if let Some(content) = self.files.content(name) {
                return Ok(Bytes::of(alloc, front(content, limit))?);
            }
        }
        self.failed_reads.push(Text::of(alloc, name)?)?;
        Err(IoFault::Failed)
    }

    /// Fails exactly where the call is listed, and then leaves the files as they were.
    fn write(&mut self, alloc: Global, name: &str, bytes: &[u8]) -> Result<(), IoFault>
        ensures files { Writes name.now bytes.now result (Some self.old.files) (Some self.new.files) }
        ensures failed_writes { self.new.failed_writes
            ≡ self.old.failed_writes ++ name_if_failed result name.now }
        ensures failed_reads { self.new.failed_reads ≡ self.old.failed_reads }
        ensures refused { IsErrOf result IoFault.Failed → IsListed self.old }
        ensures always { IsListed self.old
            → IsErrOf result IoFault.Failed ⊎ IsErrOf result IoFault.Memory }
        ensures kept { OnErr result (self.new.files ≡ self.old.files) }
        ensures calls { self.new.calls ≡ counted self.old.calls }
        ensures failing { self.new.failing ≡ self.old.failing }
    {
        if self.count() {
            self.failed_writes.push(Text::of(alloc, name)?)?;
            return Err(IoFault::Failed);
        }
        self.files.add(alloc, name, bytes)?;
        Ok(())
    }
}

/// The first `limit` bytes, or all of them where there are fewer.
fn front(bytes: &[u8], limit: usize) -> &[u8]
    ensures { result.now ≡ take limit bytes.now }
{
    &bytes[..bytes.len().min(limit)]
}
