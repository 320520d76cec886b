//! The command `show`: what each variable of a program may be where a protocol method is called on it.

ghost use Rattle.std.specs.Prelude.{◌≡◌, ◌<◌, ◌^◌, length};
ghost use Rattle.mg_sources.specs.Files.{HaveKinds};
ghost use Rattle.mg_words.specs.Words.{Show};
ghost use Rattle.mg_top.specs.inner.Preparing.{IsCarried};

use crate::check::print;
use mg_accepted::resolve_program;
use mg_delivery::Delivery;
use mg_refusal::Stop;
use mg_text::{Bytes, Text};
use std::alloc::Global;

/// A line for each call of a protocol method in the program that the files are, whether or not its demands fail; or
/// the first refusal by its readers, roles and types.
pub fn show(alloc: Global, names: &[Text], contents: &[Bytes]) -> Result<Delivery, Stop>
    requires same { length names.now ≡ length contents.now }
    requires count { length contents.now < 2 ^ 32 }
    requires kinds { HaveKinds names.now }
    ensures { IsCarried (Show names.now) contents.now result }
{
    let core = resolve_program(alloc, names, contents)?;
    let text = mg_shown::show(alloc, names, &core)?;
    Ok(print(alloc, text.as_str())?)
}
