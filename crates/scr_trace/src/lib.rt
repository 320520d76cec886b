//! Walks along local protocols: which calls a protocol offers, and where each leads.
//! The automaton of a protocol's text, along which they go, also lays out its typestate.
#![tactic(auto)]

mod arrow;
mod call;
mod entries;
mod laying;
mod names;
mod offers;
mod search;
mod standing;
mod tables;
mod walk;

pub use arrow::{Arrow, Exits, Hop};
pub use call::{Call, Offer};
pub use laying::Laying;
pub use names::{is_label_call, is_message_call, label_call_name};
pub use scr_tree::call_name;
pub use standing::Standing;
pub use walk::{StepFault, Walk};
