//! Who is at fault: a place and a name.
//! A table of names tells which were met before.

ghost use Rattle.std.specs.Prelude.{◌≡◌, IfOk, OnOk, not};
ghost use Rattle.mg_text.specs.Interned.{with_text};
ghost use Rattle.jv_types.specs.inner.Blaming.{is_in};

use mg_text::{Memory, Names, Place};

/// The place of a fault, and the name that is at fault, which is empty where none is.
#[derive(Clone, Copy)]
pub(crate) struct Blamed<'a> {
    pub place: Place,
    pub name: &'a str,
}

/// Adds a name to those that were met. Whether it is new there.
pub(crate) fn note(met: &mut Names, name: &str) -> Result<bool, Memory>
    ensures new { IfOk result (λ b. b ≡ not (is_in met.old name.now)) }
    ensures names { OnOk result (met.new ≡ with_text met.old name.now) }
{
    if met.find(name).is_some() {
        return Ok(false);
    }
    if met.len() >= u32::MAX as usize {
        return Err(Memory);
    }
    met.add(name)?;
    Ok(true)
}
