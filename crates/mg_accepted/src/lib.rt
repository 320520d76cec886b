//! The program of a command: its files become one core, where they are well typed; and with that its
//! least tables, where its usages are right. Otherwise the first refusal in the order of work is told.
#![tactic(auto)]

mod accepted;
mod judged;
mod law;
mod program;
mod refusal;
mod unmet;

pub use accepted::{AcceptedProgram, accept};
pub use law::well_typed_is_resolved;
pub use program::resolve_program;
pub use unmet::refusal_of;
