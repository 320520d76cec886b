//! What is shown behind calls.

ghost use Rattle.std.specs.Prelude.{◌≡◌, map, length, IfOk};
ghost use Rattle.indexmap.specs.IndexMap.{get};
ghost use Rattle.use_flow.specs.View.{AreFor};
ghost use Rattle.lsp_text.specs.Positions.{ArePositionsOf};
ghost use Rattle.lsp_sights.specs.Answers.{Under, AreHints, AreHintsIn};
ghost use Rattle.lsp_sights.specs.inner.Hinted.{hinted};

use crate::located::{Located, beginning};
use crate::sights::{Sights, calls_of};
use jv_core::Core;
use lsp_messages::Hint;
use lsp_text::{Encoding, Position, Range, offset_of, positions_of};
use mg_shown::seen::{PlaceKey, seen_of};
use mg_text::Memory;
use std::alloc::Global;
use use_verdict::find_usages;

// Where the paths of calls end.
fn ends_of(alloc: Global, calls: &[Located]) -> Result<Vec<usize>, Memory>
    ensures { IfOk result (λ v. v.items ≡ map (λ c. c.end) calls.now) }
{
    let mut ends = Vec::with_capacity(alloc, calls.len())?;
    for call in calls {
        ends.push(call.end)?;
    }
    Ok(ends)
}

// The positions behind the paths of calls.
fn positions_behind(
    alloc: Global,
    text: &str,
    encoding: Encoding,
    calls: &[Located],
) -> Result<Vec<Position>, Memory>
    ensures { IfOk result (λ v. ArePositionsOf encoding text.now (map (λ c. c.end) calls.now) v.items) }
{
    let ends = ends_of(alloc, calls)?;
    positions_of(alloc, text, ends.as_slice(), encoding)
}

impl<'a> Sights<'a> {
    // The hints of calls, which stand at these positions.
    fn hints(
        &self,
        alloc: Global,
        calls: &[Located],
        positions: &[Position],
    ) -> Result<Vec<Hint>, Memory>
        requires made { AreFor self.now.core.now self.now.tables.now }
        requires same { length calls.now ≡ length positions.now }
        ensures { IfOk result (λ v. v.items ≡ hinted self.now.core.now (get ⟦<PlaceKey as PartialEq>⟧.eq self.now.seen.now)
            calls.now positions.now) }
    {
        let mut hints = Vec::new(alloc);
        for (number, call) in calls.iter().enumerate() {
            let text = self.hint(alloc, call.site)?;
            let position = positions[number];
            hints.push(Hint { position, text })?;
        }
        Ok(hints)
    }
}

// The hints of these calls.
fn hints_of(
    alloc: Global,
    core: &Core,
    text: &str,
    encoding: Encoding,
    calls: &[Located],
) -> Result<Vec<Hint>, Memory>
    ensures { IfOk result (λ v. Under core.now (λ reached t. AreHints encoding text.now core.now reached t calls.now v.items)) }
{
    let positions = positions_behind(alloc, text, encoding, calls)?;
    let met = find_usages(alloc, core)?;
    let seen = seen_of(alloc, met.sights.as_slice())?;
    let sights = Sights {
        core,
        tables: &met.tables,
        seen: &seen,
    };
    sights.hints(alloc, calls, positions.as_slice())
}

/// The hints of the calls that begin in a range of the text of this file.
///
/// # Errors
/// `Memory` only.
pub(crate) fn hints_in(
    alloc: Global,
    core: &Core,
    text: &str,
    encoding: Encoding,
    file: u32,
    range: Range,
) -> Result<Vec<Hint>, Memory>
    ensures { IfOk result (λ v. AreHintsIn encoding text.now core.now file range v.items) }
{
    let calls = calls_of(alloc, core, text, file)?;
    let from = offset_of(text, range.start, encoding);
    let to = offset_of(text, range.end, encoding);
    let asked = beginning(alloc, calls.as_slice(), from, to)?;
    hints_of(alloc, core, text, encoding, asked.as_slice())
}
