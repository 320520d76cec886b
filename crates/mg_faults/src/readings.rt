//! What the readers refuse, file by file.

ghost use Rattle.std.specs.Prelude.{◌≡◌, ◌<◌, ◌^◌, IfOk, length};
ghost use Rattle.mg_sources.specs.Files.{HaveKinds, Kind, IsOf, source_of, sources};
ghost use Rattle.mg_faults.specs.Faults.{AreRefused};
ghost use Rattle.mg_faults.specs.inner.Readings.{IsRefusal};

use mg_refusal::{Refusal, Stop};
use mg_sources::read_part;
use mg_text::{Bytes, Memory, Text};
use std::alloc::Global;

// The refusal of one file, where it is refused.
fn refused(alloc: Global, number: u32, name: &Text, bytes: &[u8]) -> Result<Option<Refusal>, Memory>
    requires { (kind : Kind) × IsOf kind (source_of number name.now bytes.now) }
    ensures { IfOk result (λ r. IsRefusal (source_of number name.now bytes.now) r) }
{
    match read_part(alloc, number, name, bytes) {
        Ok(_part) => Ok(None),
        Err(Stop::Refused(refusal)) => Ok(Some(refusal)),
        Err(Stop::Memory) => Err(Memory),
    }
}

/// The refusals of the readers, one for each file that is refused, in the order of the words.
///
/// # Errors
/// `Memory` only.
pub(crate) fn read_each(
    alloc: Global,
    names: &[Text],
    contents: &[Bytes],
) -> Result<Vec<Refusal>, Memory>
    requires same { length names.now ≡ length contents.now }
    requires count { length contents.now < 2 ^ 32 }
    requires kinds { HaveKinds names.now }
    ensures { IfOk result (λ v. AreRefused (sources names.now contents.now) v.items) }
{
    let mut refusals = Vec::new(alloc);
    for (number, bytes) in contents.iter().enumerate() {
        let found = refused(alloc, number as u32, &names[number], bytes.as_slice())?;
        let Some(refusal) = found else {
            continue;
        };
        refusals.push(refusal)?;
    }
    Ok(refusals)
}
