//! From the two files of a command to what is told of their typestates.

ghost use Rattle.std.specs.Prelude.{◌≡◌, ℕ, Bool, All, Some, List as Seq, IfOk, OnOk, codes, length, map, slice_get};
ghost use Rattle.ts_tree.specs.Typestate.{Typestate as States};
ghost use Rattle.mg_sources.specs.Files.{EndsWith, sources};
ghost use Rattle.mg_sources.specs.Reading.{States as ReadStates};
ghost use Rattle.mg_sources.specs.Parts.{part_of};
ghost use Rattle.mg_refusal.specs.Refusals.{Refusal};
ghost use Rattle.mg_refusal.specs.Order.{Answers, AnswersOnly};
ghost use Rattle.mg_refined.specs.Refined.{Tells, AreJudged, FirstRefusal};

use crate::telling::{no_text, yes_text};
use mg_refusal::Stop;
use mg_sources::{Part, read_parts};
use mg_text::{Bytes, Memory, Text};
use std::alloc::Global;
use ts_refine::Verdict;
use ts_tree::Typestate;

/// What is told of two typestates: lines of text, and whether the first stands for the second.
#[derive(Drop)]
pub struct Told {
    pub text: Text,
    pub stands: bool,
}

/// What is told of the typestates that these two files are, in their order.
///
/// # Errors
/// `Refused` with the fault of the first file that its reader refuses; `Memory` where memory is
/// wanted.
pub fn refine(alloc: Global, names: &[Text], contents: &[Bytes]) -> Result<Told, Stop>
    requires two { length names.now ≡ 2 }
    requires same { length contents.now ≡ 2 }
    requires kinds { All (EndsWith (codes ".protocol")) names.now }
    // What is answered is told of the typestates that the files are, or is their first refusal.
    ensures answered { Answers (λ t. AreJudged (sources names.now contents.now) t.text t.stands)
        (FirstRefusal (sources names.now contents.now)) result }
    // Files of which this is to be told are answered by it, unless memory runs out.
    ensures only { (text : Seq ℕ) (stands : Bool) → AreJudged (sources names.now contents.now) text stands →
        AnswersOnly (λ t. (t.text ≡ text) × (t.stands ≡ stands)) result }
    // Of files that are refused nothing is told.
    ensures refused { (r : Refusal) → FirstRefusal (sources names.now contents.now) r → OnOk result ⊥ }
{
    refined(alloc, names, contents)
}

// The same, without what follows from its being one answer.
fn refined(alloc: Global, names: &[Text], contents: &[Bytes]) -> Result<Told, Stop>
    requires two { length names.now ≡ 2 }
    requires same { length contents.now ≡ 2 }
    requires kinds { All (EndsWith (codes ".protocol")) names.now }
    ensures { Answers (λ t. AreJudged (sources names.now contents.now) t.text t.stands)
        (FirstRefusal (sources names.now contents.now)) result }
{
    let parts = read_parts(alloc, names, contents)?;
    let both = parts.as_slice();
    Ok(tell(alloc, typestate_at(both, 0), typestate_at(both, 1))?)
}

// The typestate that stands there.
fn typestate_at(parts: &[Part], i: usize) -> &Typestate
    requires { (t : States) × (slice_get (map part_of parts.now) i ≡ Some (ReadStates t)) }
    ensures { slice_get (map part_of parts.now) i ≡ Some (ReadStates result.now) }
{
    match &parts[i] {
        Part::States(typestate) => typestate,
        _ => unreachable!(),
    }
}

// What is told of two typestates.
fn tell(alloc: Global, a: &Typestate, b: &Typestate) -> Result<Told, Memory>
    ensures { IfOk result (λ t. Tells a.now b.now t.text t.stands) }
{
    match ts_refine::refine(alloc, a, b)? {
        Verdict::Yes(pairs) => Ok(Told {
            text: yes_text(alloc, pairs.len())?,
            stands: true,
        }),
        Verdict::No { calls, reason } => Ok(Told {
            text: no_text(alloc, calls.as_slice(), &reason)?,
            stands: false,
        }),
    }
}
