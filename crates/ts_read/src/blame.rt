//! Who breaks a condition: a name, and where it stands.
//! A table of names tells which were met before.

ghost use Rattle.std.specs.Prelude.{◌≡◌, Some, IfOk, OnOk, not, option_map, codes};
ghost use Rattle.mg_text.specs.Interned.{with_text};
ghost use Rattle.mg_read.specs.Culprit.{culprit};
ghost use Rattle.ts_read.specs.Conditions.{blamed};
ghost use Rattle.ts_read.specs.inner.Finding.{blamed_of, is_in};

use mg_text::{Memory, Names, Place, Text};
use std::alloc::Global;
use ts_parse::Naming;

/// The name that breaks a condition, and its place.
#[derive(Drop)]
pub(crate) struct Blamed {
    pub place: Place,
    pub name: Text,
}

// This name is to blame.
pub(crate) fn blame(name: &Naming) -> Result<Option<Blamed>, Memory>
    ensures { IfOk result (λ o. option_map blamed_of o ≡ Some (blamed name.now)) }
{
    let text = name.text.copy()?;
    Ok(Some(Blamed {
        place: name.place,
        name: text,
    }))
}

// The word `drop` at this place is to blame.
pub(crate) fn blame_drop(alloc: Global, place: Place) -> Result<Option<Blamed>, Memory>
    ensures { IfOk result (λ o. option_map blamed_of o ≡ Some (culprit place (codes "drop"))) }
{
    let name = Text::of(alloc, "drop")?;
    Ok(Some(Blamed { place, name }))
}

// Adds a name to those that were met. Whether it is new there.
pub(crate) fn note(met: &mut Names, name: &Text) -> Result<bool, Memory>
    ensures new { IfOk result (λ b. b ≡ not (is_in met.old name.now)) }
    ensures names { OnOk result (met.new ≡ with_text met.old name.now) }
{
    let text = name.as_str();
    if met.find(text).is_some() {
        return Ok(false);
    }
    if met.len() >= u32::MAX as usize {
        return Err(Memory);
    }
    met.add(text)?;
    Ok(true)
}
