//! The states of a protocol's typestate.

ghost use Rattle.std.specs.Prelude.{◌≡◌, ◌<◌, ◌^◌, IfOk, map, length, false};
ghost use Rattle.scr_tree.specs.Local.{tree_of};
ghost use Rattle.scr_trace.specs.inner.View.{cell_of, edges_of, graph_of_work, work_of};
ghost use Rattle.ts_tree.specs.View.{state_of as kept_state};
ghost use Rattle.stm_gen.specs.Laid.{methods_of, state_name};
ghost use Rattle.stm_gen.specs.inner.States.{states_from};

use crate::methods::methods_of;
use mg_text::{List, Memory, Text};
use scr_trace::{Exits, Laying};
use scr_tree::Local;
use std::alloc::Global;
use ts_tree::State;

/// The states of a protocol that is laid out, in the order of the text.
#[tactic(auto, using(crate::proofs::Making::state_steps))]
pub fn states_of(alloc: Global, local: &Local, laid: &Laying<'_>) -> Result<List<State>, Memory>
    ensures few { IfOk result (λ ss. length (work_of laid.now).cells < 2 ^ 32) }
    ensures made { IfOk result (λ ss. map kept_state ss.items ≡ states_from (tree_of local.now).me 0
        (graph_of_work (work_of laid.now)).states) }
{
    let mut states = List::new(alloc);
    for number in 0..laid.len() {
        let Some(exits) = laid.exits_of(number) else {
            unreachable!()
        };
        let state = state_of(alloc, local, laid, number, exits)?;
        states.push(state)?;
    }
    Ok(states)
}

// The state of this number, which offers this.
fn state_of(
    alloc: Global,
    local: &Local,
    laid: &Laying<'_>,
    number: u32,
    exits: &Exits<'_>,
) -> Result<State, Memory>
    ensures { IfOk result (λ s. kept_state s
        ≡ record {
          name = state_name number;
          methods = methods_of (tree_of local.now).me (edges_of (work_of laid.now) (cell_of exits.now));
          drops = false;
        }) }
{
    let name = state_name(alloc, number)?;
    let methods = methods_of(alloc, local, laid, exits)?;
    Ok(State {
        name,
        methods,
        drops: false,
    })
}

// The name of the state of this number.
fn state_name(alloc: Global, number: u32) -> Result<Text, Memory>
    ensures { IfOk result (λ t. t ≡ state_name number) }
{
    let name = format!(in alloc; "State{number}")?;
    Ok(Text::from_string(name))
}
