//! The pool of a class file that is being made: constants, each once, in the order in which they
//! are first needed, and the numbers of what is called by its name.
//! Only `Pool::add` has a limit: else what is too large is told by those who look at the whole.
#![tactic(auto)]

mod consts;
mod key;
mod pool;

pub use consts::{class_const, field_const, int_const, method_const, name_and_type, text_const};
pub use key::{Key, short};
pub use pool::{Pool, PoolFault};
