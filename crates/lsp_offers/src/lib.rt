//! What may be called on a variable behind whose dot one types: the methods that its typestate offers in the states
//! that it may be in there. A text in which one types has no meaning yet, so a call is put where the typed word stands.
#![tactic(auto)]

mod attempts;
mod called;
mod calls;
mod documents;
mod firsts;
mod items;
mod laws;
mod offering;
mod programs;
mod repaired;
mod spots;
mod typing;

pub use laws::rows_hold;
pub use offering::offers;
