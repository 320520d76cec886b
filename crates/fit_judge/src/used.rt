//! The first use that is no role's: a call of a method of `Session`, or the making of an object of the
//! class of a role elsewhere.

ghost use Rattle.std.specs.Prelude.{IfOk, List as Seq};
ghost use Rattle.mg_text.specs.Call.{Name};
ghost use Rattle.mg_read.specs.First.{Judged};
ghost use Rattle.fit_judge.specs.inner.Making.{HoldsClasses};
ghost use Rattle.fit_judge.specs.inner.Used.{Talks, MakesHeld};

use crate::code::class_name;
use fit_uses::Use;
use jv_core::Core;
use mg_refusal::Refusal;
use mg_text::{Memory, Text};
use std::alloc::Global;
use std::collections::HashSet;

/// The first call of a method of `Session`.
pub(crate) fn own_session(alloc: Global, uses: &[Use]) -> Result<Option<Refusal>, Memory>
    ensures { IfOk result (Judged Talks uses.now) }
{
    for used in uses {
        match *used {
            Use::Talks(place, call) => {
                let name = Text::of(alloc, call.method().name)?;
                return Ok(Some(Refusal::named("OwnSession", place, name)));
            }
            Use::Makes(..) => continue,
        }
    }
    Ok(None)
}

/// The first making of an object of one of these classes.
pub(crate) fn made_elsewhere(
    alloc: Global,
    core: &Core,
    classes: &HashSet<String>,
    uses: &[Use],
) -> Result<Option<Refusal>, Memory>
    ensures { (roles : Seq Name) → HoldsClasses roles classes.now → IfOk result (Judged (MakesHeld core.now roles) uses.now) }
{
    for used in uses {
        let (place, class) = match *used {
            Use::Makes(place, class) => (place, class),
            Use::Talks(..) => continue,
        };
        let name = match class_name(core, class) {
            Some(name) => name,
            None => continue,
        };
        if classes.contains(name) {
            let name = Text::of(alloc, name)?;
            return Ok(Some(Refusal::named("MadeElsewhere", place, name)));
        }
    }
    Ok(None)
}
