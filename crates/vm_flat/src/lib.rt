//! Instructions in eight bytes each, so that one `match` is one dispatch, and whole programs of them.
//! What has no such form is left out, and is looked up in the linked program where it runs.
#![tactic(auto)]

mod flat;
mod program;
mod shape;

pub use flat::Flat;
pub use program::{FlatClass, FlatMethod, FlatProgram, flatten, method_at, method_there};
