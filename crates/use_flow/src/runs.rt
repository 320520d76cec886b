//! Where the contexts of each method begin among all contexts.
//! Those of a method have numbers in a row.

ghost use Rattle.std.specs.Prelude.{◌≡◌, slice_index_or, IfOk};
ghost use Rattle.use_flow.specs.Runs.{starts_of, starts_in};

use crate::entered::{Entered, add_contexts};
use crate::fields::number;
use crate::offers::all_offers;
use jv_core::Core;
use mg_sets::StateSet;
use mg_text::Memory;
use std::alloc::Global;

/// Where the contexts of each method begin, by the numbers of methods, and where those of the last
/// end.
#[derive(Drop)]
pub struct Runs {
    starts: Vec<u32>,
}

// Where the contexts begin, by the states that calls lead to.
#[tactic(auto, using(crate::proofs::Running::starting))]
pub(crate) fn runs_by(alloc: Global, core: &Core, reached: &[StateSet]) -> Result<Runs, Memory>
    ensures { IfOk result (λ r. starts_of r ≡ starts_in core.now reached.now) }
{
    let methods = core.methods();
    let offers = all_offers(alloc, core)?;
    let mut entered = Entered::new(alloc);
    let mut starts = Vec::new(alloc);
    for place in 0..methods.len() {
        let method_number = number(place)?;
        starts.push(number(entered.contexts.len())?)?;
        add_contexts(
            core,
            reached,
            offers.as_slice(),
            &mut entered,
            method_number,
            &methods[place],
        )?;
    }
    starts.push(number(entered.contexts.len())?)?;
    Ok(Runs { starts })
}

impl Runs {
    // The number of the first context of a method.
    #[tactic(auto, using(crate::proofs::Scenes::scenes))]
    pub(crate) fn start_of(&self, method: usize) -> u32
        ensures { result ≡ slice_index_or (starts_of self.now) method 0 }
    {
        if method < self.starts.len() {
            return self.starts[method];
        }
        0
    }
}
