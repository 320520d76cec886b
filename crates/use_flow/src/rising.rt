//! Numbers in rising order, each once.

ghost use Rattle.std.specs.Prelude.{◌≡◌, IfOk};
ghost use Rattle.use_flow.specs.inner.Reading.{rising};

use mg_text::Memory;
use std::alloc::Global;
use std::collections::BTreeSet;

// These numbers as a set.
#[tactic(auto, using(crate::proofs::Ascending::gathering))]
fn gathered(alloc: Global, numbers: &[u32]) -> Result<BTreeSet<u32>, Memory>
    ensures { IfOk result (λ s. s.keys ≡ rising numbers.now) }
{
    let mut set = BTreeSet::new(alloc);
    for number in numbers {
        let _new = set.insert(*number)?;
    }
    Ok(set)
}

// These numbers in rising order, each once.
pub(crate) fn rising(alloc: Global, numbers: &[u32]) -> Result<Vec<u32>, Memory>
    ensures { IfOk result (λ v. v.items ≡ rising numbers.now) }
{
    let set = gathered(alloc, numbers)?;
    let mut rising = Vec::new(alloc);
    for number in &set {
        rising.push(*number)?;
    }
    Ok(rising)
}
