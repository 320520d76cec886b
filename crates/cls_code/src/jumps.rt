//! Where jumps lead: each must reach the start of an instruction.
//! The starts are marked once, and each jump looks at one mark.

ghost use Rattle.std.specs.Prelude.{◌≡◌, ℕ, List, ◌+◌, ◌<◌, ◌≤◌, ◌^◌, ◌+ℤ◌, ◌==◌, pos, ◌∷◌, [], length, get_or, not, false, Option, IfOk};
ghost use Rattle.std.specs.List.{list_any, All};
ghost use Rattle.cls_tree.specs.View.{args_of, instr_of, instrs_of};
ghost use Rattle.cls_tree.specs.Layout.{code_bytes};
ghost use Rattle.cls_tree.specs.Jumps.{is_start, distances, jumps_outside, first_outside, starts_from};
ghost use Rattle.cls_code.specs.Inner.{IsMarked};

use cls_tree::{Args, Instr};
use mg_text::Memory;
use std::alloc::Global;

/// The mark at a place; `false` where there is none.
fn mark_at(marks: &[bool], at: usize) -> bool
    ensures { result ≡ get_or marks.now at false }
{
    if at < marks.len() { marks[at] } else { false }
}

/// The places at which instructions start, marked.
fn marks_of(alloc: Global, starts: &[usize], len: usize) -> Result<Vec<bool>, Memory>
    requires { All (λ s. s < len) starts.now }
    ensures { IfOk result (λ marks. IsMarked starts.now marks.items) }
{
    let mut marks = vec![in alloc; false; len]?;
    for start in starts {
        marks[*start] = true;
    }
    Ok(marks)
}

/// Whether a jump from this place reaches a mark.
fn is_reached(marks: &[bool], place: usize, distance: i32) -> bool
    requires { place < 2 ^ 32 }
    ensures { (starts : List ℕ) → IsMarked starts marks.now → result ≡ is_start starts (pos place +ℤ distance) }
{
    let target = place as i64 + distance as i64;
    if target < 0 {
        return false;
    }
    mark_at(marks, target as usize)
}

/// Whether one of these jumps from a place reaches no mark.
fn is_any_outside(marks: &[bool], place: usize, distances: &[i32]) -> bool
    requires { place < 2 ^ 32 }
    ensures { (starts : List ℕ) → IsMarked starts marks.now
        → result ≡ list_any (λ d. not (is_start starts (pos place +ℤ d))) distances.now }
{
    for distance in distances {
        if !is_reached(marks, place, *distance) {
            return true;
        }
    }
    false
}

/// Whether the instruction at a place jumps to where none starts.
#[tactic(auto, unfolding(cls_tree::specs::Jumps::jumps_outside))]
fn is_outside(marks: &[bool], place: usize, instr: &Instr) -> bool
    requires { place < 2 ^ 32 }
    ensures { (starts : List ℕ) → IsMarked starts marks.now → result ≡ jumps_outside starts place (instr_of instr.now) }
{
    match &instr.args {
        Args::Jump(distance) => !is_reached(marks, place, *distance as i32),
        Args::Table {
            default,
            offsets,
            ..
        } => {
            !is_reached(marks, place, *default) || is_any_outside(marks, place, offsets.as_slice())
        }
        _ => false,
    }
}

/// The place of the first instruction that jumps to where none starts.
pub(crate) fn first_outside(
    alloc: Global,
    instrs: &[Instr],
    starts: &[usize],
    len: usize,
) -> Result<Option<u32>, Memory>
    requires started { starts.now ≡ starts_from 0 (instrs_of instrs.now) }
    requires long { len ≡ length (code_bytes (instrs_of instrs.now)) }
    requires short { len ≤ 32767 }
    ensures { IfOk result (λ r. r ≡ first_outside (instrs_of instrs.now)) }
{
    let marks = marks_of(alloc, starts, len)?;
    for (index, instr) in instrs.iter().enumerate() {
        let place = starts[index];
        if is_outside(&marks, place, instr) {
            return Ok(Some(place as u32));
        }
    }
    Ok(None)
}
