//! The files of a projected global protocol: for each of its roles, in their order, the text of the
//! local protocol that says what the role does; or the first refusal.
#![tactic(auto)]

mod fault;
mod files;
mod laws;
mod locals;
mod told;

pub use fault::ProjectedFault;
pub use files::{RoleFile, projected};
pub use laws::{files_are_followed, runs_are_followed};
pub use locals::Locals;
pub use told::{project, project_locals};
