//! The code of expressions and conditions of a resolved program, before it is laid out in a class file.
//! It is written once, from left to right: jumps lead to labels, whose places come later.
#![tactic(auto)]

mod coder;
mod conditions;
mod emitted;
mod expressions;
mod locals;
mod symbolic;
mod typed;

pub use coder::{Coder, Draft};
pub use emitted::return_of;
pub use locals::{Locals, local_at, params};
pub use symbolic::{Operand, Symbolic};
pub use typed::is_null;
