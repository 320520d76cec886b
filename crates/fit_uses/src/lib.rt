//! Where code of a resolved program calls a method of `Session`, and where it makes an object, in
//! the order of the text; and the making of an object of a class in the body of a method.
#![tactic(auto)]

mod making;
mod returning;
mod usage;
mod uses;

pub use making::{add_uses_beside_making, has_making};
pub use usage::Use;
pub use uses::uses_in_all;
