//! From a local protocol to the typestate of its role's object.
//! The typestate allows exactly the traces of the protocol, and ends exactly where it does.
#![tactic(auto)]

mod methods;
mod states;
mod types;

ghost use Rattle.std.specs.Prelude.{◌≡◌, ◌≤◌, ◌++◌, length, IfOk, codes};
ghost use Rattle.scr_tree.specs.Local.{tree_of};
ghost use Rattle.scr_tree.specs.Meaning.{protocol_of};
ghost use Rattle.stm_gen.specs.Laid.{IsLaid};
ghost use Rattle.stm_gen.specs.Numbered.{typestate_of};
ghost use Rattle.stm_gen.specs.Agreement.{Agrees};

pub use methods::choice_enum;
use mg_text::{Memory, Text};
use scr_trace::Laying;
use scr_tree::Local;
use states::states_of;
use std::alloc::Global;
use ts_tree::Typestate;
pub use types::carried;

/// The typestate of a local protocol: `State0`, `State1`, .. in the order of the text, each with
/// the methods of the steps there, which lead to the states that these reach. There are at most 1,000.
/// The only error is `Memory`, where there is too little of it.
pub fn generate(alloc: Global, local: &Local) -> Result<Typestate, Memory>
    // Its states, methods and targets are those that the numbers of the text give.
    ensures numbered { IfOk result (λ t. t ≡ typestate_of (tree_of local.now)) }
    ensures few { IfOk result (λ t. length t.states ≤ 1000) }
    ensures laid { IfOk result (λ t. IsLaid (tree_of local.now) t) }
    // Its calls are those of the protocol.
    ensures agrees { IfOk result (λ t. Agrees (tree_of local.now).me (protocol_of (tree_of local.now)) t) }
{
    let laid = Laying::of(alloc, local)?;
    let states = states_of(alloc, local, &laid)?;
    let name = object_name(alloc, local.me())?;
    Ok(Typestate { name, states })
}

// The name of the object of a role.
fn object_name(alloc: Global, me: &Text) -> Result<Text, Memory>
    ensures { IfOk result (λ t. t ≡ me.now ++ codes "Protocol") }
{
    let mut name = String::new(alloc);
    name.push_str(me.as_str())?;
    name.push_str("Protocol")?;
    Ok(Text::from_string(name))
}
