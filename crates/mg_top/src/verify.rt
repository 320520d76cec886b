//! The command `verify`: each method of class files is tried for a typing. Nothing is assumed of them.

ghost use Rattle.std.specs.Prelude.{◌≡◌, ◌<◌, ◌^◌, List as Seq, length};
ghost use Rattle.mg_words.specs.Words.{Word, Verify};
ghost use Rattle.mg_top.specs.inner.Preparing.{IsCarried};

use mg_delivery::{Delivery, Status};
use mg_refusal::Stop;
use mg_text::Bytes;
use mg_verified::verify_files;
use std::alloc::Global;

/// How many methods the class files have, where each has a typing, or the first refusal.
pub fn verify(alloc: Global, contents: &[Bytes]) -> Result<Delivery, Stop>
    requires { length contents.now < 2 ^ 32 }
    ensures { (names : Seq Word) → length names ≡ length contents.now → IsCarried (Verify names) contents.now result }
{
    let line = verify_files(alloc, contents)?;
    Ok(Delivery::printed(alloc, line.as_str(), Status::Done)?)
}
