//! The machine that runs linked programs: its frames and objects, and its steps.
//! What a step is stands in the definitions of `vm_model`.
#![tactic(auto)]

mod built;
mod calls;
mod frequent;
mod machine;
mod needs;
mod objects;
mod plain;
mod program;
mod quiet;
mod returns;
mod step;
mod step_typed;
mod typed;
mod waits;

pub use machine::{Machine, has_main};
pub use vm_frames::Cell;
pub use vm_session::Stepped;
pub use vm_typed::Telling;
