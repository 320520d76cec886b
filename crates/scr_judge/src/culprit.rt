//! What is at fault: a place and a name.

ghost use Rattle.std.specs.Prelude.{◌≡◌, IfOk};
ghost use Rattle.mg_read.specs.Culprit.{culprit};
ghost use Rattle.scr_judge.specs.inner.View.{culprit_of, named_of};
ghost use Rattle.scr_judge.specs.inner.OnSpot.{unless};

use mg_text::{Memory, Place, Text};
use std::alloc::Global;

/// What is at fault: where it stands, and its name, which is empty where nothing is named.
#[derive(Clone, Copy)]
pub struct Culprit<'a> {
    pub place: Place,
    pub name: &'a str,
}

/// What is at fault, with a name of its own.
#[derive(Drop)]
pub struct Named {
    pub place: Place,
    pub name: Text,
}

/// A culprit with a name of its own.
pub fn with_name(alloc: Global, culprit: Option<Culprit<'_>>) -> Result<Option<Named>, Memory>
    ensures { IfOk result (λ n. named_of n ≡ culprit_of culprit.entry) }
{
    match culprit {
        None => Ok(None),
        Some(culprit) => {
            let name = Text::of(alloc, culprit.name)?;
            Ok(Some(Named {
                place: culprit.place,
                name,
            }))
        }
    }
}

/// The culprit, unless all is fine.
pub fn culprit_unless(fine: bool, place: Place, name: &str) -> Option<Culprit<'_>>
    ensures { culprit_of result ≡ unless fine (culprit place name.now) }
{
    if fine {
        return None;
    }
    Some(Culprit { place, name })
}
