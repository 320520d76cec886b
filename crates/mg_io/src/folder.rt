//! A folder of files, by their names: what reading and writing promise.

ghost use Rattle.std.specs.Prelude.{◌≡◌, ◌≤◌, ℕ, List, ◌++◌, length, take, Option, Some, option_map, IfOk, IfSome};
ghost use Rattle.std.specs.FinMap as map;
ghost use Rattle.mg_io.specs.Outside.{Files, name_if_failed, Writes};

use crate::IoFault;
use mg_text::Bytes;
use std::alloc::Global;

/// A folder of files, by their names.
pub trait Folder {
    /// The files, where the folder tells them.
    ghost files: { Self → Option Files };

    /// The names of the reads that failed, which only grow.
    ghost failed_reads: { Self → List (List ℕ) };

    /// The names of the writes that failed, which only grow.
    ghost failed_writes: { Self → List (List ℕ) };

    /// Reads the first `limit` bytes of the named file, or all of it where there are fewer.
    /// `Failed` comes only where the name was appended to the failed reads; it, or want of
    /// memory, comes where the files are told and the name isn't there.
    fn read(&mut self, alloc: Global, name: &str, limit: usize) -> Result<Bytes, IoFault>
        ensures limit { IfOk result (λ bytes. length bytes ≤ limit) }
        ensures content { IfOk result
            (λ bytes. IfSome (files self.old)
            (λ m. option_map (take limit) (map.get m name.now) ≡ Some bytes)) }
        ensures files { files self.new ≡ files self.old }
        ensures failed_reads { failed_reads self.new
            ≡ failed_reads self.old ++ name_if_failed result name.now }
        ensures failed_writes { failed_writes self.new ≡ failed_writes self.old };

    /// Makes the named file hold these bytes, and leaves every other file.
    /// After `Failed` it holds what it held or a front of the new bytes, and the name was
    /// appended to the failed writes; after `Memory` the files are as before.
    fn write(&mut self, alloc: Global, name: &str, bytes: &[u8]) -> Result<(), IoFault>
        ensures files { Writes name.now bytes.now result (files self.old) (files self.new) }
        ensures failed_writes { failed_writes self.new
            ≡ failed_writes self.old ++ name_if_failed result name.now }
        ensures failed_reads { failed_reads self.new ≡ failed_reads self.old };
}
