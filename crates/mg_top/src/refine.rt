//! The command `refine`: whether the typestate of one file stands for that of another.

ghost use Rattle.std.specs.Prelude.{◌≡◌, All, codes, length};
ghost use Rattle.mg_sources.specs.Files.{EndsWith};
ghost use Rattle.mg_words.specs.Words.{Refine};
ghost use Rattle.mg_top.specs.Commands.{refined_status};
ghost use Rattle.mg_top.specs.inner.Preparing.{IsCarried};

use mg_delivery::{Delivery, Status};
use mg_refusal::Stop;
use mg_text::{Bytes, Text};
use std::alloc::Global;

/// Whether the first typestate stands for the second, or the first refusal.
pub fn refine(alloc: Global, names: &[Text], contents: &[Bytes]) -> Result<Delivery, Stop>
    requires two { length names.now ≡ 2 }
    requires same { length contents.now ≡ 2 }
    requires kinds { All (EndsWith (codes ".protocol")) names.now }
    ensures { IsCarried (Refine names.now) contents.now result }
{
    let told = mg_refined::refine(alloc, names, contents)?;
    Ok(Delivery::printed(alloc, told.text.as_str(), status_of(told.stands))?)
}

// The status of an answer.
fn status_of(stands: bool) -> Status
    ensures { result ≡ refined_status stands }
{
    if stands {
        Status::Done
    } else {
        Status::Refused
    }
}
