//! The command `fit`: whether the roles of a program fit a global protocol, so that in no run does one
//! of them get stuck on the others. Nothing is run.

ghost use Rattle.std.specs.Prelude.{◌≡◌, ◌<◌, ◌^◌, [], ◌∷◌, length, IfOk};
ghost use Rattle.mg_words.specs.Words.{Fit, AreGlobalAndSources};
ghost use Rattle.mg_words.specs.inner.Judging.{cast_of};
ghost use Rattle.mg_top.specs.Commands.{cast_mains_of, fits_text};
ghost use Rattle.mg_top.specs.inner.Preparing.{IsCarried};

use crate::run::role_mains;
use mg_delivery::{Action, Delivery, Status};
use mg_refusal::Stop;
use mg_text::{Bytes, List, Memory, Text};
use mg_words::Cast;
use std::alloc::Global;
use vm_world::RoleMain;

/// Says that the program of the files behind the first, run by these roles, fits the global protocol
/// of the first; or the first refusal.
pub fn fit(
    alloc: Global,
    cast: &Cast<'_>,
    files: &[Text],
    contents: &[Bytes],
) -> Result<Delivery, Stop>
    requires files { AreGlobalAndSources files.now }
    requires same { length files.now ≡ length contents.now }
    requires count { length contents.now < 2 ^ 32 }
    ensures { IsCarried (Fit (cast_of cast.now) files.now) contents.now result }
{
    let Some((_global, names)) = files.split_first() else {
        unreachable!()
    };
    let Some((global, program)) = contents.split_first() else {
        unreachable!()
    };
    let mains = cast_mains(alloc, cast)?;
    mg_fitted::fit(alloc, names, program, global.as_slice(), mains.as_slice())?;
    Ok(fits(alloc)?)
}

// The roles of the cast.
fn cast_mains(alloc: Global, cast: &Cast<'_>) -> Result<List<RoleMain>, Memory>
    ensures { IfOk result (λ l. l.items ≡ cast_mains_of (cast_of cast.now)) }
{
    let classes = cast.mains(alloc)?;
    role_mains(alloc, classes.as_slice())
}

// What is said of roles that fit.
fn fits(alloc: Global) -> Result<Delivery, Memory>
    ensures actions { IfOk result (λ d. d.actions.items ≡ Action.Print fits_text ∷ []) }
    ensures status { IfOk result (λ d. d.status ≡ Status.Done) }
{
    Delivery::printed(alloc, "fits\n", Status::Done)
}
