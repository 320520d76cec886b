//! Where the instructions of a code begin, as far as they can be laid out.

ghost use Rattle.std.specs.Prelude.{◌≡◌, ◌-◌, ◌++◌, ◌∷◌, false, true, length, replicate, IfOk, OnOk};
ghost use Rattle.jcf_code.specs.Marks.{marks_from};

use crate::bytes::tail;
use crate::layout::laid_out;
use mg_text::Memory;
use std::alloc::Global;

/// Marks the bytes of an instruction, of which the first is its beginning.
fn put_marks(marks: &mut Vec<bool>, size: usize) -> Result<(), Memory>
    ensures { OnOk result (marks.new.items ≡ marks.old.items ++ true ∷ replicate (size - 1) false) }
{
    marks.push(true)?;
    put_unmarked(marks, size.saturating_sub(1))
}

/// So many bytes that are no beginnings.
fn put_unmarked(marks: &mut Vec<bool>, times: usize) -> Result<(), Memory>
    ensures { OnOk result (marks.new.items ≡ marks.old.items ++ replicate times false) }
{
    for _ in 0..times {
        marks.push(false)?;
    }
    Ok(())
}

/// Which places of a code are beginnings of instructions, as far as these can be laid out.
#[tactic(auto, unfolding(crate::specs::Marks::marks_from))]
pub fn marks_of(alloc: Global, code: &[u8]) -> Result<Vec<bool>, Memory>
    ensures { IfOk result (λ marks. marks.items ≡ marks_from (length code.now) code.now code.now) }
{
    let mut marks = Vec::new(alloc);
    let mut rest = code;
    for _ in 0..code.len() {
        if rest.is_empty() {
            return Ok(marks);
        }
        let Ok((_, size)) = laid_out(code.len().saturating_sub(rest.len()), rest) else {
            return Ok(marks);
        };
        put_marks(&mut marks, size)?;
        rest = tail(rest, size);
    }
    Ok(marks)
}
