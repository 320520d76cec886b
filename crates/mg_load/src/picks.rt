//! Which branches are taken, one after another, as a generator gives them.

ghost use Rattle.std.specs.Prelude.{◌≡◌, ◌+◌, ◌*◌, ◌<◌, ◌≤◌, ◌^◌, [], IfOk, length};
ghost use Rattle.mg_load.specs.Workload.{picks};

use mg_text::Memory;
use rand_core::SeedableRng;
use rand_core::utils::NextWord;
use rand_pcg::Lcg64Xsh32;
use std::alloc::Global;

/// The branches that are taken: four times as many as there are.
pub(crate) fn picks(alloc: Global, n: u32, seed: u64) -> Result<Vec<u32>, Memory>
    requires some { 0 < n }
    requires few { n < 2 ^ 16 }
    ensures { IfOk result (λ v. v.items ≡ picks n seed) }
{
    let mut generator = Lcg64Xsh32::seed_from_u64(seed);
    let mut picks = Vec::new(alloc);
    for _ in 0..4 * n {
        let word = generator.next_word();
        picks.push(word % n)?;
    }
    Ok(picks)
}
