//! What is shown over a call.

ghost use Rattle.std.specs.Prelude.{◌∷◌, [], IfOk};
ghost use Rattle.lsp_text.specs.Positions.{IsPositionOf};
ghost use Rattle.lsp_sights.specs.Answers.{IsHoverOf, IsHoverAt};

use crate::located::{Located, covering};
use crate::sights::{Sights, calls_of};
use jv_core::Core;
use lsp_messages::Answer;
use lsp_text::{Encoding, Position, Range, offset_of, position_of};
use mg_shown::seen::seen_of;
use mg_text::Memory;
use std::alloc::Global;
use use_verdict::find_usages;

// The range of the path of a call.
fn range_of(text: &str, call: Located, encoding: Encoding) -> Range
    ensures begins { IsPositionOf encoding text.now call.start result.start }
    ensures ends { IsPositionOf encoding text.now call.end result.end }
{
    Range {
        start: position_of(text, call.start, encoding),
        end: position_of(text, call.end, encoding),
    }
}

// What is answered over the path of this call.
fn hover_of(
    alloc: Global,
    core: &Core,
    text: &str,
    encoding: Encoding,
    call: Located,
) -> Result<Answer, Memory>
    ensures { IfOk result (λ a. IsHoverOf encoding text.now core.now (call ∷ []) a) }
{
    let met = find_usages(alloc, core)?;
    let seen = seen_of(alloc, met.sights.as_slice())?;
    let sights = Sights {
        core,
        tables: &met.tables,
        seen: &seen,
    };
    let said = sights.hover(alloc, call.site)?;
    Ok(Answer::Hover {
        text: said,
        range: range_of(text, call, encoding),
    })
}

/// What is answered over a position of the text of this file: what is said of the first call whose path covers it.
///
/// # Errors
/// `Memory` only.
pub(crate) fn hover_at(
    alloc: Global,
    core: &Core,
    text: &str,
    encoding: Encoding,
    file: u32,
    position: Position,
) -> Result<Answer, Memory>
    ensures { IfOk result (λ a. IsHoverAt encoding text.now core.now file position a) }
{
    let calls = calls_of(alloc, core, text, file)?;
    let offset = offset_of(text, position, encoding);
    match covering(calls.as_slice(), offset) {
        Some(call) => hover_of(alloc, core, text, encoding, call),
        None => Ok(Answer::Nothing),
    }
}
