//! Global protocols as they are written and read: statements with their places, the parts of a file,
//! and a valid global protocol, which keeps its conditions by its type.
#![tactic(auto)]

mod global;
mod statement;
mod written;

pub use global::Global;
pub use statement::GStatement;
pub use written::WrittenGlobal;
