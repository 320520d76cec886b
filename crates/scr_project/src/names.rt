//! The recs around a place, and how far a `continue` leads.

ghost use Rattle.std.specs.Prelude.{◌≡◌, suc, IfOk};
ghost use Rattle.scr_project.specs.inner.Walk.{far};
ghost use Rattle.scr_project.specs.inner.View.{names_of};

use mg_text::Memory;

/// The names of the recs around a place, the innermost first.
#[derive(Clone, Copy)]
pub(crate) enum Names<'a> {
    Outside,
    Inside(&'a str, &'a Names<'a>),
}

/// How many of the recs around are left or begun again by a `continue` of this name; one too many
/// where none has it.
pub(crate) fn far(name: &str, around: &Names<'_>) -> Result<u32, Memory>
    ensures { IfOk result (λ n. n ≡ far name.now (names_of around.now)) }
{
    match around {
        Names::Outside => Ok(1),
        Names::Inside(other, further) => {
            if *other == name {
                return Ok(1);
            }
            let more = far(name, further)?;
            one_more(more)
        }
    }
}

// One more, if there is such a number.
fn one_more(n: u32) -> Result<u32, Memory>
    ensures { IfOk result (λ m. m ≡ suc n) }
{
    match n.checked_add(1) {
        Some(m) => Ok(m),
        None => Err(Memory),
    }
}
