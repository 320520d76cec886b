//! The members of `Session` on a running frame: messages that are sent, looked at, taken and refused,
//! and the operands that they take.
#![tactic(auto)]

mod operands;
mod session;
mod stepped;

pub use operands::{int_at, int_of_local, push_text, put_text, set_local, text_at};
pub use session::{Payload, is_true, look, other_role, refuse, send, take, truth};
pub use stepped::{Stepped, broken};
