//! What instructions do to kinds: each is tested against the kinds that it finds, and leaves others.
#![tactic(auto)]

mod frame;
mod locals;
mod rows;
mod settling;
mod trades;
mod want;

pub use frame::{Frame, Scene};
pub use rows::row;
